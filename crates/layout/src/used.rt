// How a goal used a head, and how that is counted where the head is known.
ghost use Rattle.std.specs.Prelude.{◌≡◌, length};
ghost use Rattle.definition.specs.declared.usages.HeadUsages.{HeadUsages};
ghost use Rattle.definition.specs.Usages.{one_usage, add_usages_from_nested};
ghost use Rattle.layout.specs.Blocks.{usages_of};

use crate::records;
use definition::paths::PathKind;
use definition::usages::HeadUsages;

// The usages of a nested goal are counted kind by kind; of a single usage, by a cycle of a kind,
// one counter is touched.
pub trait Used: Copy {
    ghost uses: { Self → HeadUsages };

    fn usages(self) -> HeadUsages
        ensures { result ≡ uses self };

    // They are counted in the 32 bytes of a head's usages.
    fn count(self, b: &mut [u8])
        requires { length b.old ≡ 32 }
        ensures { usages_of b.new ≡ add_usages_from_nested (usages_of b.old) (uses self) };
}

impl Used for HeadUsages {
    ghost uses = { λ usages. usages };

    fn usages(self) -> HeadUsages {
        self
    }

    fn count(self, b: &mut [u8]) {
        records::count_nested(b, self);
    }
}

impl Used for PathKind {
    ghost uses = { one_usage };

    fn usages(self) -> HeadUsages {
        HeadUsages::one(self)
    }

    fn count(self, b: &mut [u8]) {
        records::count_usage(b, self);
    }
}
