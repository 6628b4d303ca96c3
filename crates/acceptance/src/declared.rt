// Declarations as records with a name, and the search for a name among them: written once for variables, arrays and procedures.
ghost use Rattle.std.specs.Prelude.{◌≡◌, map};
ghost use Rattle.lines.specs.declared.records.Role.TheVariants.{Declared};
ghost use Rattle.acceptance.specs.declared.declared.Sought.{Sought};
ghost use Rattle.acceptance.specs.declared.declared.Sought.TheVariants.{Simple, Array, Procedure};
ghost use Rattle.acceptance.specs.Scopes.{Entry, global_entry, last_declared, listed};

use lines::records::{Declaration, LineNumber, Name, Role};

// The sort of name that is looked up.
#[derive(Clone, Copy, PartialEq, Eq, Debug)]
pub(crate) enum Sought {
    Simple,
    Array,
    Procedure,
}

// A record of a declaration that has a name.
pub(crate) trait Named {
    // the name, and the declaration
    ghost told: { Self → Entry };

    // the sort of its name
    ghost sort: { Sought };

    fn name(&self) -> Name
        ensures { result ≡ (told self.now).0 };

    fn declaration(&self) -> Declaration
        ensures { result ≡ (told self.now).1 };

    // The global on a line, from a cell on, as such a record, where it is one of the sort.
    fn of_global(line: LineNumber, cell: u32, name: Name, length: u16) -> Option<Self>
        ensures { listed told result ≡ global_entry sort line cell name length };
}

#[derive(Clone, Copy, Default)]
pub(crate) struct SimpleDeclared {
    pub name: Name,
    pub declaration: Declaration,
}

impl Named for SimpleDeclared {
    ghost told = { λ s. (s.name, s.declaration) };

    ghost sort = { Simple };

    fn name(&self) -> Name {
        self.name
    }

    fn declaration(&self) -> Declaration {
        self.declaration
    }

    fn of_global(line: LineNumber, cell: u32, name: Name, length: u16) -> Option<SimpleDeclared> {
        if length > 0 {
            return None;
        }
        let role = Role::GlobalSimple { cell };
        let declaration = Declaration { line, role };
        Some(SimpleDeclared { name, declaration })
    }
}

#[derive(Clone, Copy, Default)]
pub(crate) struct ArrayDeclared {
    pub name: Name,
    pub declaration: Declaration,
}

impl Named for ArrayDeclared {
    ghost told = { λ s. (s.name, s.declaration) };

    ghost sort = { Array };

    fn name(&self) -> Name {
        self.name
    }

    fn declaration(&self) -> Declaration {
        self.declaration
    }

    fn of_global(line: LineNumber, cell: u32, name: Name, length: u16) -> Option<ArrayDeclared> {
        if length == 0 {
            return None;
        }
        let role = Role::GlobalArray {
            first: cell,
            length,
        };
        let declaration = Declaration { line, role };
        Some(ArrayDeclared { name, declaration })
    }
}

#[derive(Clone, Copy)]
pub(crate) struct ProcedureDeclared {
    pub name: Name,
    // the line of its d
    pub line: LineNumber,
}

impl Named for ProcedureDeclared {
    ghost told = { λ s. (s.name, record { line = s.line; role = Declared }) };

    ghost sort = { Procedure };

    fn name(&self) -> Name {
        self.name
    }

    fn declaration(&self) -> Declaration {
        Declaration {
            line: self.line,
            role: Role::Declared,
        }
    }

    fn of_global(
        line: LineNumber,
        cell: u32,
        name: Name,
        length: u16,
    ) -> Option<ProcedureDeclared> {
        None
    }
}

// The last declaration of that name.
pub(crate) fn search<D: Named>(declarations: &[D], name: Name) -> Option<Declaration>
    ensures { result ≡ last_declared (map D.Named.told declarations.now) name }
{
    for declared in declarations.iter().rev() {
        if declared.name() == name {
            return Some(declared.declaration());
        }
    }
    None
}
