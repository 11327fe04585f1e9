//! A text of a bounded number of characters.

ghost use Rattle.std.specs.Prelude.{◌≡◌, ◌≤◌, length, take};
ghost use Rattle.binfarce_v0_grammar.specs.declared.punycode.text.TheConstants.{MOST_CHARACTERS};

/// The most characters of a decoded text, so that it needs no allocation.
pub const MOST_CHARACTERS: usize = 128;

/// A decoded text.
#[derive(Drop)]
pub struct Decoded {
    characters: [char; MOST_CHARACTERS],
    count: usize,
    ghost within: { count ≤ MOST_CHARACTERS },
}

impl Decoded {
    ghost use Rattle.binfarce_v0_grammar.specs.machine.Decoded.{characters_of};

    /// The text of the first `count` characters.
    pub fn new(characters: [char; MOST_CHARACTERS], count: usize) -> Decoded
        requires { count ≤ MOST_CHARACTERS }
        ensures { characters_of result ≡ take count characters }
    {
        Decoded { characters, count }
    }

    /// The text's characters.
    pub fn characters(&self) -> &[char]
        ensures value { result.now ≡ characters_of self.now }
        ensures bound { length result.now ≤ MOST_CHARACTERS }
    {
        &self.characters[..self.count]
    }
}
