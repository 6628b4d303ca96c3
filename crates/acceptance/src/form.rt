// Whether the lines of a sheet hang together as one tree behind its globals.
ghost use Rattle.std.specs.Prelude.{◌≡◌, suc, length, ◌==◌};
ghost use Rattle.script.specs.Lists.{times};
ghost use Rattle.script.specs.Tree.{line};
ghost use Rattle.script.specs.Apart.{past_globals};
ghost use Rattle.script.specs.Fields.{fields, named_in};
ghost use Rattle.script.specs.Tests.{ends_amiss, field_fits, form_amiss, is_unnamed, late_global, lowest, named, names_again, names_amiss};
ghost use Rattle.acceptance.specs.Classes.{field_meant, fields_meant};
ghost use Rattle.acceptance.specs.Naming.{stands, stands_again};

use crate::classes::{Class, LineField, LineFields, class_of, fields};
use crate::sheet_lines::Sheet;

impl LineFields {
    // Whether one of the fields names line m.
    fn name(self, m: usize) -> bool
        ensures { result ≡ stands m (named_in (fields_meant self)) }
    {
        match self {
            LineFields::Zero => false,
            LineFields::One(a) => a.line == m,
            LineFields::Two(a, b) => a.line == m || b.line == m,
            LineFields::Three(a, b, c) => a.line == m || b.line == m || c.line == m,
        }
    }
}

impl<'a> Sheet<'a> {
    // Whether a field of line n names an earlier line of the class wanted.
    fn field_fits(&self, n: usize, field: LineField) -> bool
        ensures { result ≡ field_fits (line self.now) n (field_meant field) }
    {
        field.line < n && field.wanted.fits(class_of(self.line(field.line)))
    }

    // Whether a field of line n does not.
    fn names_amiss(&self, n: usize) -> bool
        ensures { result ≡ names_amiss (line self.now) n }
    {
        match fields(self.line(n)) {
            LineFields::Zero => false,
            LineFields::One(a) => !self.field_fits(n, a),
            LineFields::Two(a, b) => !(self.field_fits(n, a) && self.field_fits(n, b)),
            LineFields::Three(a, b, c) => {
                !(self.field_fits(n, a) && self.field_fits(n, b) && self.field_fits(n, c))
            }
        }
    }

    // Whether line k names line m.
    pub(crate) fn names(&self, k: usize, m: usize) -> bool
        ensures { result ≡ stands m (named_in (fields (line self.now k))) }
    {
        fields(self.line(k)).name(m)
    }

    // Whether a line below n names line m.
    fn is_named_below(&self, n: usize, m: usize) -> bool
        ensures { result ≡ stands m (named (line self.now) n) }
    {
        (0..n).any(|k| self.names(k, m))
    }

    // Whether one of some fields of line n names a line that an earlier line or field names.
    fn renames(&self, n: usize, fields: LineFields) -> bool
        ensures { result ≡ stands_again (named (line self.now) n) (named_in (fields_meant fields)) }
    {
        match fields {
            LineFields::Zero => false,
            LineFields::One(a) => self.is_named_below(n, a.line),
            LineFields::Two(a, b) => self.is_named_below(n, a.line)
                || a.line == b.line
                || self.is_named_below(n, b.line),
            LineFields::Three(a, b, c) => {
                self.is_named_below(n, a.line)
                    || a.line == b.line
                    || self.is_named_below(n, b.line)
                    || b.line == c.line
                    || a.line == c.line
                    || self.is_named_below(n, c.line)
            }
        }
    }

    // Whether line n names a line that is named before.
    fn names_again(&self, n: usize) -> bool
        ensures { result ≡ names_again (line self.now) n }
    {
        self.renames(n, fields(self.line(n)))
    }

    // Whether no line names line m.
    fn is_named_by_none(&self, m: usize) -> bool
        ensures { result ≡ (times m (named (line self.now) (suc (length self.now))) == 0) }
    {
        !self.is_named_below(self.numbers().end, m)
    }

    // Whether line n, which is not the last and no global, is named by none.
    fn is_unnamed(&self, n: usize) -> bool
        ensures { result ≡ is_unnamed (line self.now) (length self.now) n }
    {
        n < self.len() && class_of(self.line(n)).is_some() && self.is_named_by_none(n)
    }

    // Whether line n is a global behind another sort of line; `first_other` is the first line that is no global.
    fn is_late_global(&self, first_other: usize, n: usize) -> bool
        ensures { result ≡ late_global (line self.now) first_other n }
    {
        first_other <= n && class_of(self.line(n)).is_none()
    }

    // Whether line n is the last and no statement.
    fn ends_amiss(&self, n: usize) -> bool
        ensures { result ≡ ends_amiss (line self.now) (length self.now) n }
    {
        n == self.len() && !Class::Statement.fits(class_of(self.line(n)))
    }

    // Whether line n keeps the sheet from being a tree: its fields do not name earlier lines of the classes wanted, it names a line
    // again or none names it, it is a global behind another sort of line, or a last line that is no statement.
    fn is_out_of_form(&self, first_other: usize, n: usize) -> bool
        ensures { result ≡ form_amiss (line self.now) (length self.now) first_other n }
    {
        self.names_amiss(n)
            || self.names_again(n)
            || self.is_unnamed(n)
            || self.is_late_global(first_other, n)
            || self.ends_amiss(n)
    }

    // The lowest line that is out of form; an empty sheet is so at line 0.
    pub(crate) fn lowest_out_of_form(&self) -> Option<usize>
        ensures { result ≡ lowest (form_amiss (line self.now) (length self.now) (past_globals self.now)) (suc (length self.now)) }
    {
        let first_other = self.past_globals();
        self.numbers()
            .find(|n| self.is_out_of_form(first_other, *n))
    }
}
