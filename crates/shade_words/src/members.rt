//! Where the members of a struct lie.

ghost use Rattle.std.specs.Prelude.{ℕ, ◌≡◌, ◌/◌, ◌↔◌, ◌<◌, ◌≤◌, IfSome, IfNone};
ghost use Rattle.shade_values.specs.Sound.{AreKnown};
ghost use Rattle.shade_values.specs.Table.{members_at};
ghost use Rattle.shade_words.specs.Lays.{Covers, AnyCovers};
ghost use Rattle.shade_words.specs.Types.{lay, members_lay, IsStruct};
ghost use Rattle.shade_words.specs.Ways.{field_offset};

use shade_values::{TypeId, TypeTable};

/// A word of a part: the type of the part, and the number of the word in it.
#[derive(Clone, Copy, Debug, PartialEq, Eq)]
pub(crate) struct PartWord {
    pub(crate) ty: TypeId,
    pub(crate) word: usize,
}

/// How many words so many bytes are.
pub(crate) fn words_of(bytes: u64) -> usize
    ensures { result ≡ bytes / 4 }
{
    (bytes / 4) as usize
}

/// The first word of member `k` of a struct, and 0 where there is no such member.
pub(crate) fn member_offset(types: &TypeTable, number: u32, k: usize) -> usize
    requires { IsStruct types.now number }
    ensures { result ≡ field_offset (members_lay types.now number) k }
{
    let mut end: u64 = 0;
    let mut left = k;
    'members: for (_, id) in types.members(number) {
        let member = types.layout_of(*id);
        let offset = end.next_multiple_of(member.align);
        if left == 0 {
            return words_of(offset);
        }
        left -= 1;
        end = offset + member.size;
    }
    0
}

/// The word of a member that a word of a struct is.
pub(crate) fn member_with(types: &TypeTable, number: u32, word: usize) -> Option<PartWord>
    requires { IsStruct types.now number }
    ensures some { IfSome result (λ p. Covers (lay types.now p.ty) p.word ↔ AnyCovers (members_lay types.now number) word) }
    ensures below { (n : ℕ) → AreKnown n (members_at types.now.structs number) → IfSome result (λ p. p.ty.0 < n) }
    ensures none { IfNone result (¬ AnyCovers (members_lay types.now number) word) }
{
    let mut end: u64 = 0;
    'members: for (_, id) in types.members(number) {
        let member = types.layout_of(*id);
        let offset = end.next_multiple_of(member.align);
        let first = words_of(offset);
        if first <= word && word - first < words_of(member.size) {
            return Some(PartWord {
                ty: *id,
                word: word - first,
            });
        }
        end = offset + member.size;
    }
    None
}
