//! Kinds of bytes, and what stands at the front of a text.

ghost use Rattle.std.specs.Prelude.{◌≡◌, ◌≤◌, length, take, drop};
ghost use Rattle.std.specs.List.{prefix_len, take_while};
ghost use Rattle.std.specs.Char.{is_ascii_digit};
ghost use Rattle.task_parse.specs.Tokens.{is_blank, begins_name, is_in_name, after_blanks, is_over};

// Whether the byte separates tokens and means nothing else.
fn is_blank(byte: u8) -> bool
    ensures { result ≡ is_blank byte }
{
    byte == b' ' || byte == b'\t' || byte == b'\r'
}

// Whether a name may begin with the byte.
pub fn begins_name(byte: u8) -> bool
    ensures { result ≡ begins_name byte }
{
    byte.is_ascii_alphabetic() || byte == b'_'
}

// Whether the byte may stand in a name.
fn is_in_name(byte: u8) -> bool
    ensures { result ≡ is_in_name byte }
{
    begins_name(byte) || byte.is_ascii_digit()
}

// How many digits stand at the front.
fn digits_len(text: &[u8]) -> usize
    ensures len { result ≡ prefix_len is_ascii_digit text.now }
    ensures within { result ≤ length text.now }
{
    text.iter().take_while(|b| b.is_ascii_digit()).count()
}

// How many bytes at the front may stand in a name.
fn word_len(text: &[u8]) -> usize
    ensures len { result ≡ prefix_len is_in_name text.now }
    ensures within { result ≤ length text.now }
{
    text.iter().take_while(|b| is_in_name(**b)).count()
}

// How many blanks stand at the front.
fn blanks_len(text: &[u8]) -> usize
    ensures len { result ≡ prefix_len is_blank text.now }
    ensures within { result ≤ length text.now }
{
    text.iter().take_while(|b| is_blank(**b)).count()
}

// The digits at the front.
pub fn digits(text: &[u8]) -> &[u8]
    ensures { result.now ≡ take_while is_ascii_digit text.now }
{
    &text[..digits_len(text)]
}

// What may stand in a name, at the front.
pub fn word(text: &[u8]) -> &[u8]
    ensures { result.now ≡ take_while is_in_name text.now }
{
    &text[..word_len(text)]
}

// What is left behind `len` items.
pub fn behind<T>(items: &[T], len: usize) -> &[T]
    requires { len ≤ length items.now }
    ensures { result.now ≡ drop len items.now }
{
    &items[len..]
}

// What is left behind the blanks at the front.
#[tactic(auto, using(crate::proofs::Cuts::blanks_end, crate::proofs::Cuts::blanks_shorten))]
pub fn after_blanks(text: &[u8]) -> &[u8]
    ensures rest { result.now ≡ after_blanks text.now }
    ensures shorter { length result.now ≤ length text.now }
{
    behind(text, blanks_len(text))
}

// Whether nothing is left, or a comment.
pub fn is_over(text: &[u8]) -> bool
    ensures { result ≡ is_over text.now }
{
    match text {
        [] => true,
        [byte, ..] => *byte == b'#',
    }
}

// At most `len` bytes from the front.
pub fn front(text: &[u8], len: usize) -> &[u8]
    ensures { result.now ≡ take len text.now }
{
    if text.len() < len { text } else { &text[..len] }
}
