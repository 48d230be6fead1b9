//! The items that words are.
ghost use Rattle.std.specs.Prelude.{◌≡◌, ◌==◌, String, ◌∷◌, ◌++◌, [], List, ℕ, Option, IfOk, position, None, Some, map, option_map, string_bytes};
ghost use Rattle.std.specs.Option.{option_copied};
ghost use Rattle.call_words.specs.Words.{Item, cut, item_of_word, items_behind};
ghost use Rattle.call_words.specs.Reading.{item_of, joined, listed};

use crate::options::{Verb, is_flag_word};
use std::alloc::{AllocError, Global};

/// An item: the name of an option, and the text of its value, which a flag lacks.
#[derive(Clone, Copy)]
pub struct Part<'a> {
    pub name: &'a [u8],
    pub value: Option<&'a [u8]>,
}

// The place of the first `=`.
fn first_equals_sign(word: &[u8]) -> Option<usize>
    ensures { result ≡ position (λ byte. byte == 61) word.now }
{
    word.iter().position(|byte| *byte == b'=')
}

// The name before the first `=` of the word, and the value behind it.
fn cut(word: &[u8]) -> Option<Part<'_>>
    ensures { option_map item_of result ≡ cut word.now }
{
    let at = first_equals_sign(word)?;
    Some(Part {
        name: &word[..at],
        value: Some(&word[at + 1..]),
    })
}

// The item that one word is: a flag of the command, or a word with `=`.
fn item_of_word(verb: Verb, word: &[u8]) -> Option<Part<'_>>
    ensures { option_map item_of result ≡ item_of_word verb word.now }
{
    if is_flag_word(verb, word) {
        Some(Part {
            name: word,
            value: None,
        })
    } else {
        cut(word)
    }
}

// What one word is behind a name that may wait for its value: an item, or a name that waits.
fn read_word<'a>(
    verb: Verb,
    waiting: Option<&'a [u8]>,
    word: &'a [u8],
) -> (Option<Part<'a>>, Option<&'a [u8]>)
    ensures { (words : List (List ℕ)) → items_behind verb (option_copied waiting.entry) (word.now ∷ words)
        ≡ joined (listed (option_map item_of result.0)) (items_behind verb (option_copied result.1) words) }
{
    match waiting {
        Some(name) => (
            Some(Part {
                name,
                value: Some(word),
            }),
            None,
        ),
        None => match item_of_word(verb, word) {
            Some(item) => (Some(item), None),
            None => (None, Some(word)),
        },
    }
}

// With the item, if there is one.
fn with_item<'a>(items: Vec<Part<'a>>, item: Option<Part<'a>>) -> Result<Vec<Part<'a>>, AllocError>
    ensures { IfOk result (λ after. map item_of after.items ≡ map item_of items.entry.items ++ listed (option_map item_of item.entry)) }
{
    let mut items = items;
    if let Some(item) = item {
        items.push(item)?;
    }
    Ok(items)
}

/// The items that the words behind the first one are, if they are any.
pub fn items_of<'a>(
    alloc: Global,
    verb: Verb,
    words: &'a [String],
) -> Result<Option<Vec<Part<'a>>>, AllocError>
    ensures { IfOk result (λ items. option_map (λ items. map item_of items.items) items ≡ items_behind verb None (map string_bytes words.now)) }
{
    let mut items = Vec::new(alloc);
    let mut waiting: Option<&[u8]> = None;
    for word in words {
        let (item, name) = read_word(verb, waiting, word.as_bytes());
        items = with_item(items, item)?;
        waiting = name;
    }
    match waiting {
        None => Ok(Some(items)),
        Some(_) => Ok(None),
    }
}
