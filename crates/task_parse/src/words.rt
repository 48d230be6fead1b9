//! The reserved words, as their bytes.

ghost use Rattle.std.specs.Prelude.{◌≡◌};
ghost use Rattle.std.specs.Str.{bytes_eq};
ghost use Rattle.task_parse.specs.Words.{outer_word, task_word, kernel_word, message_word, operand_word, key_of};

use task_tree::Key;

// Whether the bytes are those of this word or sign.
pub fn is(bytes: &[u8], word: &str) -> bool
    ensures { result ≡ bytes_eq bytes.now word.now }
{
    bytes == word.as_bytes()
}

// Of the words of the main text.
#[tactic(auto, unfolding(crate::specs::Words::outer_word))]
fn outer_word(word: &[u8]) -> Option<Key>
    ensures { result ≡ outer_word word.now }
{
    if is(word, "array") {
        Some(Key::Array)
    } else if is(word, "show") {
        Some(Key::Show)
    } else if is(word, "comm") {
        Some(Key::Comm)
    } else if is(word, "let") {
        Some(Key::Let)
    } else if is(word, "for") {
        Some(Key::For)
    } else if is(word, "if") {
        Some(Key::If)
    } else if is(word, "else") {
        Some(Key::Else)
    } else if is(word, "end") {
        Some(Key::End)
    } else {
        None
    }
}

// Of the words of a task and of its accesses.
#[tactic(auto, unfolding(crate::specs::Words::task_word))]
fn task_word(word: &[u8]) -> Option<Key>
    ensures { result ≡ task_word word.now }
{
    if is(word, "task") {
        Some(Key::Task)
    } else if is(word, "do") {
        Some(Key::Do)
    } else if is(word, "in") {
        Some(Key::In)
    } else if is(word, "out") {
        Some(Key::Out)
    } else if is(word, "inout") {
        Some(Key::Inout)
    } else if is(word, "taskwait") {
        Some(Key::Taskwait)
    } else if is(word, "release") {
        Some(Key::Release)
    } else if is(word, "barrier") {
        Some(Key::Barrier)
    } else if is(word, "bcast") {
        Some(Key::Bcast)
    } else if is(word, "allreduce") {
        Some(Key::Allreduce)
    } else {
        None
    }
}

// Of the words of the kernels.
#[tactic(auto, unfolding(crate::specs::Words::kernel_word))]
fn kernel_word(word: &[u8]) -> Option<Key>
    ensures { result ≡ kernel_word word.now }
{
    if is(word, "fill") {
        Some(Key::Fill)
    } else if is(word, "ramp") {
        Some(Key::Ramp)
    } else if is(word, "copy") {
        Some(Key::Copy)
    } else if is(word, "add") {
        Some(Key::Add)
    } else if is(word, "sub") {
        Some(Key::Sub)
    } else if is(word, "scale") {
        Some(Key::Scale)
    } else if is(word, "shift") {
        Some(Key::Shift)
    } else if is(word, "jacobi2") {
        Some(Key::Jacobi2)
    } else if is(word, "sum") {
        Some(Key::Sum)
    } else if is(word, "least") {
        Some(Key::Least)
    } else if is(word, "greatest") {
        Some(Key::Greatest)
    } else {
        None
    }
}

// Of the words of messages and waits.
#[tactic(auto, unfolding(crate::specs::Words::message_word))]
fn message_word(word: &[u8]) -> Option<Key>
    ensures { result ≡ message_word word.now }
{
    if is(word, "send") {
        Some(Key::Send)
    } else if is(word, "ssend") {
        Some(Key::Ssend)
    } else if is(word, "recv") {
        Some(Key::Recv)
    } else if is(word, "isend") {
        Some(Key::Isend)
    } else if is(word, "issend") {
        Some(Key::Issend)
    } else if is(word, "irecv") {
        Some(Key::Irecv)
    } else if is(word, "wait") {
        Some(Key::Wait)
    } else if is(word, "waitall") {
        Some(Key::Waitall)
    } else if is(word, "iwait") {
        Some(Key::Iwait)
    } else if is(word, "iwaitall") {
        Some(Key::Iwaitall)
    } else {
        None
    }
}

// Of the words inside a statement.
#[tactic(auto, unfolding(crate::specs::Words::operand_word))]
fn operand_word(word: &[u8]) -> Option<Key>
    ensures { result ≡ operand_word word.now }
{
    if is(word, "on") {
        Some(Key::On)
    } else if is(word, "status") {
        Some(Key::Status)
    } else if is(word, "any") {
        Some(Key::Any)
    } else if is(word, "null") {
        Some(Key::Null)
    } else if is(word, "rank") {
        Some(Key::Rank)
    } else if is(word, "size") {
        Some(Key::Size)
    } else {
        None
    }
}

/// The reserved word with these bytes. None for every other word.
pub fn key_of(word: &[u8]) -> Option<Key>
    ensures { result ≡ key_of word.now }
{
    if let Some(key) = outer_word(word) {
        return Some(key);
    }
    if let Some(key) = task_word(word) {
        return Some(key);
    }
    if let Some(key) = kernel_word(word) {
        return Some(key);
    }
    if let Some(key) = message_word(word) {
        return Some(key);
    }
    operand_word(word)
}
