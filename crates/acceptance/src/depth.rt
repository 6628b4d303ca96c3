// How deep expressions and conditions are nested.
ghost use Rattle.std.specs.Prelude.{◌≡◌, suc, length, nat_lt};
ghost use Rattle.script.specs.Tree.{line, part};
ghost use Rattle.script.specs.Depth.{deepest_allowed, depth};
ghost use Rattle.script.specs.Tests.{lowest};
ghost use Rattle.acceptance.specs.Depths.{above, deeper, as_condition_deep, as_expression_deep, counted, if_below};

use crate::sheet_lines::Sheet;
use lines::records::{Line, LineNumber};

// The deepest that an expression or a condition may be.
const DEEPEST: u8 = 64;

// One more than a depth; depths are counted up to 255.
fn above(depth: Option<u8>) -> Option<u8>
    ensures { result ≡ above depth }
{
    depth.map(|depth| depth.saturating_add(1))
}

// The greater of two depths, where both are there.
fn deeper(a: Option<u8>, b: Option<u8>) -> Option<u8>
    ensures { result ≡ deeper a b }
{
    Some(a?.max(b?))
}

impl<'a> Sheet<'a> {
    // The depth of the expression at line m, where line n may name it. `condition_below` is its twin: functions of a cycle cannot be
    // handed to one another.
    #[cycle(condition_depth_expression_depth)]
    fn expression_below(&self, n: usize, m: LineNumber) -> Option<u8>
        ensures { result ≡ if_below n m (counted (as_expression_deep (part (line self.now) m))) }
    {
        let m = m as usize;
        if m < n {
            self.expression_depth(m)
        } else {
            None
        }
    }

    // The depth of the condition at line m, where line n may name it.
    #[cycle(condition_depth_expression_depth)]
    fn condition_below(&self, n: usize, m: LineNumber) -> Option<u8>
        ensures { result ≡ if_below n m (counted (as_condition_deep (part (line self.now) m))) }
    {
        let m = m as usize;
        if m < n { self.condition_depth(m) } else { None }
    }

    // The depth of the expression at line n, where the lines there are one: its sort is checked on the way down.
    #[cycle(condition_depth_expression_depth)]
    fn expression_depth(&self, n: usize) -> Option<u8>
        ensures { result ≡ counted (as_expression_deep (part (line self.now) n)) }
    {
        match self.line(n) {
            Line::Constant { .. } | Line::Simple { .. } => Some(1),
            Line::Element { index, .. } => above(self.expression_below(n, index)),
            Line::Operation { left, right, .. } => above(deeper(
                self.expression_below(n, left),
                self.expression_below(n, right),
            )),
            Line::Choice {
                condition,
                chosen,
                otherwise,
            } => above(deeper(
                self.condition_below(n, condition),
                deeper(
                    self.expression_below(n, chosen),
                    self.expression_below(n, otherwise),
                ),
            )),
            _ => None,
        }
    }

    // The depth of the condition at line n, where the lines there are one.
    #[cycle(condition_depth_expression_depth)]
    fn condition_depth(&self, n: usize) -> Option<u8>
        ensures { result ≡ counted (as_condition_deep (part (line self.now) n)) }
    {
        match self.line(n) {
            Line::Truth { .. } => Some(1),
            Line::Comparison { left, right, .. } => above(deeper(
                self.expression_below(n, left),
                self.expression_below(n, right),
            )),
            Line::Negation { condition } => above(self.condition_below(n, condition)),
            Line::Implication {
                premise,
                conclusion,
            } => above(deeper(
                self.condition_below(n, premise),
                self.condition_below(n, conclusion),
            )),
            _ => None,
        }
    }

    // Whether the expression or condition at line n is too deep.
    fn is_too_deep(&self, n: usize) -> bool
        ensures { result ≡ nat_lt deepest_allowed (depth (part (line self.now) n)) }
    {
        match self.expression_depth(n) {
            Some(depth) => DEEPEST < depth,
            None => self.condition_depth(n).is_some_and(|depth| DEEPEST < depth),
        }
    }

    // The lowest line with an expression or a condition that is too deep.
    pub(crate) fn lowest_too_deep(&self) -> Option<usize>
        ensures { result ≡ lowest (λ n. nat_lt deepest_allowed (depth (part (line self.now) n))) (suc (length self.now)) }
    {
        self.numbers().find(|n| self.is_too_deep(*n))
    }
}
