//! Numbers in plain decimal, each behind a blank.
ghost use Rattle.std.specs.Prelude.{◌≡◌, ◌≢◌, ◌∷◌, take, drop, ℕ, ◌<◌, ◌≤◌, ◌^◌, ◌++◌, List, Some, ℤ, pos, length, IsTrue, ◌↔◌, IfSome, MatchOption};
ghost use Rattle.std.specs.Prelude.{FitsSigned};
ghost use Rattle.std.specs.Int.{w32, w64};
ghost use Rattle.std.specs.List.{prefix_len};
ghost use Rattle.std.specs.Fmt.{signed_decimal};
ghost use Rattle.report_lines.specs.Lines.{number_text};
ghost use Rattle.trace_lines.specs.Reading.{is_no_blank, ends_number};

// A number, read loosely.
#[tactic(auto, using(crate::proofs::Numbers::parsed, crate::proofs::Numbers::is_text))]
fn read(word: &[u8]) -> Option<i64>
    ensures { (z : ℤ) → FitsSigned w64 z → word.now ≡ signed_decimal z → result ≡ Some z }
{
    match std::str::from_utf8(word) {
        Ok(text) => text.parse::<i64>().ok(),
        Err(_) => None,
    }
}

// Whether the bytes are the number's text.
fn is_text_of(word: &[u8], number: i64) -> bool
    ensures { IsTrue result ↔ (word.now ≡ signed_decimal number) }
{
    let mut digits = itoa::Buffer::new();
    digits.format(number).as_bytes() == word
}

// The number whose text the bytes are.
fn number_of(word: &[u8]) -> Option<i64>
    ensures some { IfSome result (λ z. word.now ≡ signed_decimal z) }
    ensures only { (z : ℤ) → FitsSigned w64 z → word.now ≡ signed_decimal z → result ≡ Some z }
{
    let number = read(word)?;
    if is_text_of(word, number) {
        Some(number)
    } else {
        None
    }
}

// How many bytes stand before the first blank.
fn word_len(bytes: &[u8]) -> usize
    ensures len { result ≡ prefix_len is_no_blank bytes.now }
    ensures within { result ≤ length bytes.now }
{
    bytes.iter().take_while(|byte| **byte != b' ').count()
}

// What follows the blank at the front.
fn behind_blank(bytes: &[u8]) -> Option<&[u8]>
    ensures { MatchOption result ((rest : List ℕ) → bytes.now ≢ 32 ∷ rest) (λ x. bytes.now ≡ 32 ∷ x.now) }
{
    match bytes {
        [b' ', behind @ ..] => Some(behind),
        _ => None,
    }
}

// The bytes before the first blank, and those from it on.
fn split_word(bytes: &[u8]) -> (&[u8], &[u8])
    ensures word { result.0.now ≡ take (prefix_len is_no_blank bytes.now) bytes.now }
    ensures rest { result.1.now ≡ drop (prefix_len is_no_blank bytes.now) bytes.now }
{
    let len = word_len(bytes);
    (&bytes[..len], &bytes[len..])
}

/// The number behind the blank at the front, and what follows it.
#[tactic(auto, using(crate::proofs::Numbers::cut_there))]
pub fn take_number(bytes: &[u8]) -> Option<(i64, &[u8])>
    ensures some { IfSome result (λ x. bytes.now ≡ number_text x.0 ++ x.1.now) }
    ensures only { (z : ℤ) (rest : List ℕ) → FitsSigned w64 z → IsTrue (ends_number rest) → bytes.now ≡ number_text z ++ rest
        → MatchOption result ⊥ (λ x. (x.0 ≡ z) × (x.1.now ≡ rest)) }
{
    let behind = behind_blank(bytes)?;
    let (word, rest) = split_word(behind);
    let number = number_of(word)?;
    Some((number, rest))
}

// The number as `u32`, where it fits.
fn count_of(number: i64) -> Option<u32>
    ensures some { IfSome result (λ x. number ≡ pos x) }
    ensures only { (n : ℕ) → n < 2 ^ 32 → number ≡ pos n → MatchOption result ⊥ (λ x. x ≡ n) }
{
    u32::try_from(number).ok()
}

/// The number that fits `u32` behind the blank at the front, and what follows it.
pub fn take_count(bytes: &[u8]) -> Option<(u32, &[u8])>
    ensures some { IfSome result (λ x. bytes.now ≡ number_text (pos x.0) ++ x.1.now) }
    ensures only { (n : ℕ) (rest : List ℕ) → n < 2 ^ 32 → IsTrue (ends_number rest) → bytes.now ≡ number_text (pos n) ++ rest
        → MatchOption result ⊥ (λ x. (x.0 ≡ n) × (x.1.now ≡ rest)) }
{
    let (number, rest) = take_number(bytes)?;
    let count = count_of(number)?;
    Some((count, rest))
}

// The number as `u16`, where it fits.
fn short_of(number: i64) -> Option<u16>
    ensures some { IfSome result (λ x. number ≡ pos x) }
    ensures only { (n : ℕ) → n < 2 ^ 16 → number ≡ pos n → MatchOption result ⊥ (λ x. x ≡ n) }
{
    u16::try_from(number).ok()
}

/// The number that fits `u16` behind the blank at the front, and what follows it.
pub fn take_short(bytes: &[u8]) -> Option<(u16, &[u8])>
    ensures some { IfSome result (λ x. bytes.now ≡ number_text (pos x.0) ++ x.1.now) }
    ensures only { (n : ℕ) (rest : List ℕ) → n < 2 ^ 16 → IsTrue (ends_number rest) → bytes.now ≡ number_text (pos n) ++ rest
        → MatchOption result ⊥ (λ x. (x.0 ≡ n) × (x.1.now ≡ rest)) }
{
    let (number, rest) = take_number(bytes)?;
    let count = short_of(number)?;
    Some((count, rest))
}

// The number as `u8`, where it fits.
fn byte_of(number: i64) -> Option<u8>
    ensures some { IfSome result (λ x. number ≡ pos x) }
    ensures only { (n : ℕ) → n < 2 ^ 8 → number ≡ pos n → MatchOption result ⊥ (λ x. x ≡ n) }
{
    u8::try_from(number).ok()
}

/// The number that fits `u8` behind the blank at the front, and what follows it.
pub fn take_byte(bytes: &[u8]) -> Option<(u8, &[u8])>
    ensures some { IfSome result (λ x. bytes.now ≡ number_text (pos x.0) ++ x.1.now) }
    ensures only { (n : ℕ) (rest : List ℕ) → n < 2 ^ 8 → IsTrue (ends_number rest) → bytes.now ≡ number_text (pos n) ++ rest
        → MatchOption result ⊥ (λ x. (x.0 ≡ n) × (x.1.now ≡ rest)) }
{
    let (number, rest) = take_number(bytes)?;
    let count = byte_of(number)?;
    Some((count, rest))
}

// The number as `i32`, where it fits.
fn whole_of(number: i64) -> Option<i32>
    ensures some { IfSome result (λ x. number ≡ x) }
    ensures only { (z : ℤ) → FitsSigned w32 z → number ≡ z → MatchOption result ⊥ (λ x. x ≡ z) }
{
    i32::try_from(number).ok()
}

/// The number that fits `i32` behind the blank at the front, and what follows it.
pub fn take_whole(bytes: &[u8]) -> Option<(i32, &[u8])>
    ensures some { IfSome result (λ x. bytes.now ≡ number_text x.0 ++ x.1.now) }
    ensures only { (z : ℤ) (rest : List ℕ) → FitsSigned w32 z → IsTrue (ends_number rest) → bytes.now ≡ number_text z ++ rest
        → MatchOption result ⊥ (λ x. (x.0 ≡ z) × (x.1.now ≡ rest)) }
{
    let (number, rest) = take_number(bytes)?;
    let whole = whole_of(number)?;
    Some((whole, rest))
}
