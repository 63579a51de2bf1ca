ghost use Rattle.std.specs.Prelude.{◌≡◌, ◌↔◌, IsTrue, option_copied};
ghost use Rattle.ld_tree.specs.Trees.{member};

use crate::entries::Entries;
use crate::items::Items;
use crate::text::Text;

/// A number: whole and of 64 bits, or the one fraction that JSON-LD's `@version` needs.
#[derive(Clone, Copy, Debug, PartialEq, Eq, PartialOrd, Ord)]
pub enum Num {
    Whole(i64),
    /// 11/10, which is written `1.1`.
    OneOne,
}

/// A JSON value (RFC 8259, section 3). Its order is total: kinds in the order below, lists and maps
/// entry by entry.
#[derive(Debug, Drop, PartialEq, Eq, PartialOrd, Ord)]
pub enum Tree {
    Null,
    Bool(bool),
    Num(Num),
    Text(Text),
    List(Items<Tree>),
    Map(Entries<Tree>),
}

impl Tree {
    /// What a map has under the name; `None` where it has no such name, and for any other kind.
    pub fn get(&self, name: &str) -> Option<&Tree>
        ensures { option_copied result ≡ member name.now self.now }
    {
        match self {
            Tree::Map(entries) => entries.get(name),
            _ => None,
        }
    }

    /// Whether the two are one value: what `==` answers.
    pub fn is_same(&self, other: &Tree) -> bool
        ensures { IsTrue result ↔ (self.now ≡ other.now) }
    {
        self == other
    }
}
