//! What a word spells.
ghost use Rattle.std.specs.Prelude.{◌≡◌, ◌≢◌, ◌<◌, ◌^◌, ◌∷◌, ◌++◌, [], ℕ, List, IfSome, IsNone, codes};
ghost use Rattle.std.specs.Fmt.{decimal};
ghost use Rattle.sgt_notation.specs.Spellings.{is_item_byte, are_item_bytes, IsItem, bracketed, IsSpelled, IsOperation};

use memchr::memchr;
use sgt_classes::{Action, Operation};

/// The maximum length of an item, in bytes.
const LONGEST_ITEM: usize = 64;

/// The maximum number of digits of a transaction.
const LONGEST_NUMBER: usize = 10;

/// An operation, and the text of its item. If it has an item, that is number 0.
#[derive(Clone, Copy)]
pub(crate) struct Spelled<'a> {
    pub operation: Operation,
    pub item: &'a [u8],
}

/// What the word spells, or `None` if it is no operation.
pub(crate) fn read_word<'a>(word: &'a [u8]) -> Option<Spelled<'a>>
    ensures some { IfSome result (λ s. IsSpelled word.now (s.item.now ∷ []) s.operation) }
    ensures none { IsNone result → ¬ IsOperation word.now }
{
    if word.is_empty() {
        return None;
    }
    let rest = &word[1..];
    match word[0] {
        b'r' => read_access(rest, Action::Read(0)),
        b'w' => read_access(rest, Action::Write(0)),
        b'c' => read_end(rest, Action::Commit),
        b'a' => read_end(rest, Action::Abort),
        _ => None,
    }
}

/// A commit or an abort from the text after its letter.
fn read_end<'a>(rest: &'a [u8], action: Action) -> Option<Spelled<'a>>
    ensures some { IfSome result (λ s. (s.operation.action ≡ action) × (s.operation.transaction < 2 ^ 32)
        × (rest.now ≡ decimal s.operation.transaction)) }
    ensures none { IsNone result → (t : ℕ) → t < 2 ^ 32 → rest.now ≢ decimal t }
{
    let transaction = read_number(rest)?;
    let operation = Operation {
        transaction,
        action,
    };
    Some(Spelled {
        operation,
        item: &rest[..0],
    })
}

/// A read or a write from the text after its letter.
fn read_access<'a>(rest: &'a [u8], action: Action) -> Option<Spelled<'a>>
    ensures some { IfSome result (λ s. (s.operation.action ≡ action) × (s.operation.transaction < 2 ^ 32) × IsItem s.item.now
        × (rest.now ≡ decimal s.operation.transaction ++ bracketed s.item.now)) }
    ensures none { IsNone result → (t : ℕ) (x : List ℕ) → t < 2 ^ 32 → IsItem x → rest.now ≢ decimal t ++ bracketed x }
{
    let Some(open) = memchr(b'[', rest) else {
        return None;
    };
    let Some(transaction) = read_number(&rest[..open]) else {
        return None;
    };
    let Some(item) = read_item(&rest[open + 1..]) else {
        return None;
    };
    let operation = Operation {
        transaction,
        action,
    };
    Some(Spelled { operation, item })
}

/// An item from the text after its opening bracket.
fn read_item<'a>(bytes: &'a [u8]) -> Option<&'a [u8]>
    ensures some { IfSome result (λ x. IsItem x.now × (bytes.now ≡ x.now ++ codes "]")) }
    ensures none { IsNone result → (x : List ℕ) → IsItem x → bytes.now ≢ x ++ codes "]" }
{
    if bytes.len() < 2 || bytes.len() > LONGEST_ITEM + 1 || bytes[bytes.len() - 1] != b']' {
        return None;
    }
    let item = &bytes[..bytes.len() - 1];
    if are_item_bytes(item) {
        Some(item)
    } else {
        None
    }
}

/// Whether an item may contain each byte.
fn are_item_bytes(bytes: &[u8]) -> bool
    ensures { result ≡ are_item_bytes bytes.now }
{
    for byte in bytes {
        if !is_item_byte(*byte) {
            return false;
        }
    }
    true
}

/// Whether an item may contain the byte: a letter, a digit, or one of `_ . / : -`.
fn is_item_byte(byte: u8) -> bool
    ensures { result ≡ is_item_byte byte }
{
    matches!(byte, b'A'..=b'Z' | b'a'..=b'z' | b'0'..=b'9' | b'_' | b'.' | b'/' | b':' | b'-')
}

/// The number that the digits spell, without leading zeros, if it can be a transaction's.
fn read_number(digits: &[u8]) -> Option<u32>
    ensures some { IfSome result (λ n. (n < 2 ^ 32) × (digits.now ≡ decimal n)) }
    ensures none { IsNone result → (n : ℕ) → n < 2 ^ 32 → digits.now ≢ decimal n }
{
    if digits.is_empty() || digits.len() > LONGEST_NUMBER {
        return None;
    }
    if digits[0] == b'0' && digits.len() > 1 {
        return None;
    }
    let mut value: u64 = 0;
    for digit in digits {
        if !digit.is_ascii_digit() {
            return None;
        }
        value = 10 * value + u64::from(*digit - b'0');
    }
    if value > u64::from(u32::MAX) {
        return None;
    }
    Some(value as u32)
}
