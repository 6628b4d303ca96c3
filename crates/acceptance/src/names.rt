// Names that are declared twice, and the line that names a line.
ghost use Rattle.std.specs.Prelude.{◌≡◌, suc, ◌<◌, ◌≤◌, ◌&&◌, length, nat_lt, IfSome};
ghost use Rattle.script.specs.Tree.{line};
ghost use Rattle.script.specs.Apart.{as_global};
ghost use Rattle.script.specs.IsScript.{same_sort};
ghost use Rattle.script.specs.Tests.{fellows_by_lines, global_again, lowest, name_twice, procedure_again, same_global, taken_before, under};
ghost use Rattle.script.specs.Around.{user};
ghost use Rattle.acceptance.specs.Naming.{line_of_user};
ghost use Rattle.acceptance.specs.Scopes.{system_at};

use crate::sheet_lines::Sheet;
use lines::records::{Line, Name};

// Whether two globals of these lengths are both simple or both arrays.
fn same_sort(a: u16, b: u16) -> bool
    ensures { result ≡ same_sort a b }
{
    (a == 0) == (b == 0)
}

// Whether both lines are globals of one sort with one name.
fn same_global(a: Line, b: Line) -> bool
    ensures { result ≡ same_global (as_global a) (as_global b) }
{
    let Line::Global { name, length } = a else {
        return false;
    };
    let Line::Global {
        name: other_name,
        length: other_length,
    } = b
    else {
        return false;
    };
    name == other_name && same_sort(length, other_length)
}

impl<'a> Sheet<'a> {
    // Whether line m is a global that line n declares again.
    fn is_declared_again(&self, m: usize, n: usize) -> bool
        ensures { result ≡ (nat_lt 0 m && same_global (as_global (line self.now m)) (as_global (line self.now n))) }
    {
        0 < m && same_global(self.line(m), self.line(n))
    }

    // Whether line n is a global with the name of an earlier one of its sort.
    fn is_global_again(&self, n: usize) -> bool
        ensures { result ≡ global_again (line self.now) n }
    {
        (0..n).any(|m| self.is_declared_again(m, n))
    }

    // The line that names line m; the last of them where more do.
    pub(crate) fn user(&self, m: usize) -> Option<usize>
        ensures user { line_of_user result ≡ user (line self.now) (suc (length self.now)) m }
        ensures counted { IfSome result (λ k. (0 < k) × (k ≤ length self.now)) }
    {
        // a loop: with `rfind` the proof does not close, for want of what a range gives from its back
        for k in self.numbers().rev() {
            if self.names(k, m) {
                return Some(k);
            }
        }
        None
    }

    // Whether the declarations at line a have a procedure of that name on a line before n.
    pub(crate) fn is_taken(&self, a: usize, n: usize, name: Name) -> bool
        ensures { result ≡ taken_before n name (under (line self.now) a) }
    {
        match self.line(a) {
            Line::Procedure { name: other, .. } => a < n && other == name,
            Line::Join { first, second } => {
                let first = first as usize;
                let second = second as usize;
                (first < a && self.is_taken(first, n, name))
                    || (second < a && self.is_taken(second, n, name))
            }
            _ => false,
        }
    }

    // The line of the system that the declarations at line n belong to.
    pub(crate) fn system_over(&self, n: usize) -> Option<usize>
        ensures is { result ≡ system_at self.now n }
        ensures low { IfSome result (λ s. s ≤ 2048) }
    {
        let mut at = n;
        // a line of a sheet out of form may be its own user: as many steps as there are lines are enough
        for _step in 0..self.len() {
            at = self.user(at)?;
            match self.line(at) {
                Line::System { .. } => return Some(at),
                Line::Join { .. } => {}
                _ => return None,
            }
        }
        None
    }

    // Whether a procedure on a line before n, of the system that line n is in, has that name.
    fn has_earlier_fellow(&self, n: usize, name: Name) -> bool
        ensures { result ≡ taken_before n name (fellows_by_lines (line self.now) (length self.now) n) }
    {
        let Some(system) = self.system_over(n) else {
            return false;
        };
        match self.line(system) {
            Line::System { declarations, .. } => self.is_taken(declarations as usize, n, name),
            _ => false,
        }
    }

    // Whether line n is a procedure whose formals have one name, or whose name a procedure of its system on an earlier line has.
    fn is_procedure_again(&self, n: usize) -> bool
        ensures { result ≡ procedure_again (line self.now) (length self.now) n }
    {
        match self.line(n) {
            Line::Procedure {
                name,
                value_formal,
                variable_formal,
                ..
            } => { value_formal == variable_formal || self.has_earlier_fellow(n, name) }
            _ => false,
        }
    }

    // Whether line n declares a name twice: among the globals of a sort, the formals of a procedure, or the procedures of a system.
    fn is_name_again(&self, n: usize) -> bool
        ensures { result ≡ name_twice (line self.now) (length self.now) n }
    {
        self.is_global_again(n) || self.is_procedure_again(n)
    }

    // The lowest line that declares a name again.
    pub(crate) fn lowest_name_again(&self) -> Option<usize>
        ensures { result ≡ lowest (name_twice (line self.now) (length self.now)) (suc (length self.now)) }
    {
        self.numbers().find(|n| self.is_name_again(*n))
    }
}
