// Constants that the number kind does not hold.
ghost use Rattle.std.specs.Prelude.{◌≡◌, suc, length};
ghost use Rattle.script.specs.Tree.{line};
ghost use Rattle.script.specs.Tests.{lowest, off_kind};

use crate::sheet_lines::Sheet;
use kinds::NumberKind;
use lines::records::Line;

impl<'a> Sheet<'a> {
    // Whether line n is a constant that the number kind does not hold.
    fn is_out_of_kind<K: NumberKind>(&self, n: usize) -> bool
        ensures { result ≡ off_kind K.kind.least K.kind.most (line self.now) n }
    {
        match self.line(n) {
            Line::Constant { value } => value < K::SMALLEST || K::LARGEST < value,
            _ => false,
        }
    }

    // The lowest line with a constant that the number kind does not hold.
    pub(crate) fn lowest_out_of_kind<K: NumberKind>(&self) -> Option<usize>
        ensures { result ≡ lowest (off_kind K.kind.least K.kind.most (line self.now)) (suc (length self.now)) }
    {
        self.numbers().find(|n| self.is_out_of_kind::<K>(*n))
    }
}
