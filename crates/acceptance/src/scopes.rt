// Looking up a name in what is around a line: from the innermost declaration outwards, and then among the globals.
ghost use Rattle.std.specs.Prelude.{◌≡◌, [], ◌∷◌, suc, length};
ghost use Rattle.script.specs.Tree.{line};
ghost use Rattle.script.specs.Around.{naming};
ghost use Rattle.script.specs.Apart.{globals_of};
ghost use Rattle.script.specs.Tests.{lowest, not_declared, under};
ghost use Rattle.acceptance.specs.Depths.{if_below};
ghost use Rattle.acceptance.specs.Scopes.{array_entries, declaration_at, declared_around, entries, last_declared, procedure_entries, simple_entries, system_entries};

use crate::declared::{ArrayDeclared, ProcedureDeclared, SimpleDeclared, Sought, search};
use crate::sheet_lines::Sheet;
use lines::records::{Declaration, Line, LineNumber, Name, Role};

// The simple variable that line p declares by that name: a new one, or a formal.
fn simple_of(said: Line, p: LineNumber, name: Name) -> Option<Declaration>
    ensures { result ≡ last_declared (simple_entries p (naming said)) name }
{
    let declared_as = |name: Name, role: Role| SimpleDeclared {
        name,
        declaration: Declaration { line: p, role },
    };
    match said {
        Line::NewSimple { name: declared, .. } => {
            search(&[declared_as(declared, Role::Declared)], name)
        }
        Line::Procedure {
            value_formal,
            variable_formal,
            ..
        } => search(
            &[
                declared_as(value_formal, Role::ValueFormal),
                declared_as(variable_formal, Role::VariableFormal),
            ],
            name,
        ),
        _ => None,
    }
}

// The array that line p declares by that name.
fn array_of(said: Line, p: LineNumber, name: Name) -> Option<Declaration>
    ensures { result ≡ last_declared (array_entries p (naming said)) name }
{
    let Line::NewArray { name: declared, .. } = said else {
        return None;
    };
    let declaration = Declaration {
        line: p,
        role: Role::Declared,
    };
    search(
        &[ArrayDeclared {
            name: declared,
            declaration,
        }],
        name,
    )
}

impl<'a> Sheet<'a> {
    // The procedure of that name among the declarations at line d: the last of them, where more have it.
    #[cycle(procedure_at)]
    fn procedure_at(&self, d: LineNumber, name: Name) -> Option<Declaration>
        ensures { result ≡ last_declared (procedure_entries (under (line self.now) d)) name }
    {
        match self.line(d as usize) {
            Line::Procedure { name: declared, .. } => search(
                &[ProcedureDeclared {
                    name: declared,
                    line: d,
                }],
                name,
            ),
            Line::Join { first, second } => {
                let found = self.procedure_below(d, second, name);
                found.or(self.procedure_below(d, first, name))
            }
            _ => None,
        }
    }

    // The procedure of that name among the declarations at line m, where line d may name it.
    #[cycle(procedure_at)]
    fn procedure_below(&self, d: LineNumber, m: LineNumber, name: Name) -> Option<Declaration>
        ensures { result ≡ if_below d m (last_declared (procedure_entries (under (line self.now) m)) name) }
    {
        if m < d {
            self.procedure_at(m, name)
        } else {
            None
        }
    }

    // The procedure of that name that the line declares.
    fn procedure_of(&self, said: Line, name: Name) -> Option<Declaration>
        ensures { result ≡ last_declared (system_entries (under (line self.now)) (naming said)) name }
    {
        match said {
            Line::System { declarations, .. } => self.procedure_at(declarations, name),
            _ => None,
        }
    }

    // What line p declares by that name for the lines that it names.
    fn declared_by(&self, p: LineNumber, sought: Sought, name: Name) -> Option<Declaration>
        ensures { result ≡ last_declared (entries sought (under (line self.now)) p (naming (line self.now p))) name }
    {
        let said = self.line(p as usize);
        match sought {
            Sought::Simple => simple_of(said, p, name),
            Sought::Array => array_of(said, p, name),
            Sought::Procedure => self.procedure_of(said, name),
        }
    }

    // The declaration that a name on line n belongs to: the innermost around it, or a global.
    fn look_up(&self, n: usize, sought: Sought, name: Name) -> Option<Declaration>
        ensures { result ≡ declared_around sought name self.now n }
    {
        let mut at = n;
        // a line of a sheet out of form may be its own user: as many steps as there are lines are enough
        for _step in 0..self.len() {
            let Some(user) = self.user(at) else {
                return self.globals().find(sought, name);
            };
            let found = self.declared_by(user as LineNumber, sought, name);
            if found.is_some() {
                return found;
            }
            at = user;
        }
        self.globals().find(sought, name)
    }

    // Whether line n uses a name that no declaration around it, and no global, has.
    fn is_undeclared(&self, n: usize) -> bool
        ensures { result ≡ not_declared (line self.now) (length self.now) (globals_of self.now).scope n }
    {
        match self.line(n) {
            Line::Simple { name } => self.look_up(n, Sought::Simple, name).is_none(),
            Line::Element { name, .. } => self.look_up(n, Sought::Array, name).is_none(),
            Line::Call { procedure, .. } => self.look_up(n, Sought::Procedure, procedure).is_none(),
            _ => false,
        }
    }

    // The lowest line that uses a name which is not declared around it.
    pub(crate) fn lowest_undeclared(&self) -> Option<usize>
        ensures { result ≡ lowest (not_declared (line self.now) (length self.now) (globals_of self.now).scope) (suc (length self.now)) }
    {
        self.numbers().find(|n| self.is_undeclared(*n))
    }

    // The declaration that the record of line n tells: where it uses a name, the one that the name belongs to; for a procedure, its system.
    pub(crate) fn declaration_at(&self, n: usize) -> Option<Declaration>
        ensures { result ≡ declaration_at self.now n }
    {
        match self.line(n) {
            Line::Simple { name } => self.look_up(n, Sought::Simple, name),
            Line::Element { name, .. } => self.look_up(n, Sought::Array, name),
            Line::Call { procedure, .. } => self.look_up(n, Sought::Procedure, procedure),
            Line::Procedure { .. } => {
                let line = self.system_over(n)? as LineNumber;
                let role = Role::Declared;
                Some(Declaration { line, role })
            }
            _ => None,
        }
    }
}
