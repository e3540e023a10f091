//! Iteration over the fields of a text.

ghost use Rattle.std.specs.Prelude.{◌≡◌, ◌∷◌, ◌++◌, [], IfSome, IfNone, IsSome, ◌↔◌};
ghost use Rattle.lgm_script.specs.Field.{fields_of};

use memchr::{memchr, memrchr};
use std::marker::Model;

/// The remaining fields of a text. Contracts see the list of them.
#[derive(Drop)]
pub struct Fields<'a> {
    separator: u8,
    left: Option<&'a [u8]>,
}

impl<'a> Model for Fields<'a> {
    ghost use Rattle.std.specs.Prelude.{List, ℕ};
    ghost use Rattle.std.specs.Option.{option_map};
    ghost use Rattle.lgm_script.specs.Field.{fields_left};

    ghost Value = { List (List ℕ) };

    ghost view = { λ f. fields_left f.separator (option_map (λ text. text.now) f.left) };
}

impl<'a> Fields<'a> {
    /// The fields of a text, separated by single separators.
    pub fn new(separator: u8, text: &'a [u8]) -> Fields<'a>
        ensures { result ≡ fields_of separator text.now }
    {
        Fields {
            separator,
            left: Some(text),
        }
    }

    /// The next field.
    pub fn next(&mut self) -> Option<&'a [u8]>
        ensures some { IfSome result (λ field. self.old ≡ field.now ∷ self.new) }
        ensures none { IfNone result (self.old ≡ []) }
    {
        let text = self.left?;
        let Some(end) = memchr(self.separator, text) else {
            self.left = None;
            return Some(text);
        };
        self.left = Some(&text[end + 1..]);
        Some(&text[..end])
    }

    /// `Some` if no field is left, else `None`.
    pub fn end(&self) -> Option<()>
        ensures { IsSome result ↔ (self.now ≡ []) }
    {
        match self.left {
            Some(_) => None,
            None => Some(()),
        }
    }
}

/// The text before the last separator, and the field after it.
pub fn cut_last(separator: u8, text: &[u8]) -> Option<(&[u8], &[u8])>
    ensures some { IfSome result
        (λ parts. fields_of separator text.now ≡ fields_of separator parts.0.now ++ parts.1.now ∷ []) }
    ensures none { IfNone result (fields_of separator text.now ≡ text.now ∷ []) }
{
    let Some(end) = memrchr(separator, text) else {
        return None;
    };
    Some((&text[..end], &text[end + 1..]))
}
