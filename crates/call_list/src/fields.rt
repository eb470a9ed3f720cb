ghost use Rattle.std.specs.Prelude.{◌≡◌, ◌<◌, ◌==◌, [], ◌∷◌, IfOk, if◌then◌else◌, MatchOption, codes};
ghost use Rattle.std.specs.List.{slice_split};
ghost use Rattle.call_list.specs.Lines.{texts};
ghost use Rattle.records.specs.Ids.{id_bytes};
ghost use Rattle.call_list.specs.Numerals.{Numeral};
ghost use Rattle.words.specs.Words.{bytes_word, Long};

use crate::form::Field;
use crate::unread::{Unread, no_word};
use records::shared::ConnectionId;
use std::alloc::{AllocError, Global};
use words::words::{decimal, unhex};

/// The words of a text that are parted by one character each.
pub fn parts<'a>(heap: Global, text: &'a str, by: char) -> Result<Vec<&'a str>, AllocError>
    ensures { IfOk result (λ v. by < 128 → texts v.items ≡ slice_split (λ b. b == by) text.now) }
{
    text.split(by).collect(heap)
}

/// A number that fits its type.
// A word and its field stay two parameters: a struct of them would be made at each call, and kept by none.
pub fn number<T: TryFrom<u64>>(word: &str, field: Field) -> Result<T, Unread>
where
    T::Error: Drop,
    ensures { Numeral T.try_from_gives word.now result }
{
    let n = decimal(word).ok_or(no_word(field))?;
    T::try_from(n).map_err(|_| no_word(field))
}

/// A word that is one of two.
fn either(word: &str, no: &str, yes: &str, field: Field) -> Result<bool, Unread>
    ensures { IfOk result (λ b. word.now ≡ (if b then yes.now else no.now)) }
{
    if word == no {
        Ok(false)
    } else if word == yes {
        Ok(true)
    } else {
        Err(no_word(field))
    }
}

/// A word that is 0 or 1.
pub fn bit(word: &str, field: Field) -> Result<bool, Unread>
    ensures { IfOk result (λ b. word.now ≡ (if b then 49 ∷ [] else 48 ∷ [])) }
{
    either(word, "0", "1", field)
}

/// A word that is `yes` or `no`.
pub fn yes_no(word: &str, field: Field) -> Result<bool, Unread>
    ensures { IfOk result (λ b. word.now ≡ (if b then codes "yes" else codes "no")) }
{
    either(word, "no", "yes", field)
}

/// Bytes, as hexadecimal digits or `-`.
pub fn bytes(heap: Global, word: &str, field: Field) -> Result<Vec<u8>, Unread>
    ensures { IfOk result (λ v. bytes_word v.items ≡ word.now) }
{
    unhex(heap, word)?.ok_or(no_word(field))
}

/// Just N bytes.
pub fn fixed<const N: usize>(heap: Global, word: &str, field: Field) -> Result<[u8; N], Unread>
    ensures { IfOk result (λ array. bytes_word array ≡ word.now) }
{
    <[u8; N]>::try_from(bytes(heap, word, field)?.as_slice()).map_err(|_| no_word(field))
}

/// An identifier, or `None` for one of more than 20 bytes.
pub fn identifier(heap: Global, word: &str, field: Field) -> Result<Option<ConnectionId>, Unread>
    ensures { IfOk result (λ o. MatchOption o (Long word.now) (λ x. bytes_word (id_bytes x) ≡ word.now)) }
{
    Ok(ConnectionId::new(bytes(heap, word, field)?.as_slice()))
}
