//! Lookup of names.

ghost use Rattle.std.specs.Prelude.{◌≡◌, List, ℕ};
ghost use Rattle.binfarce_words.specs.Named.{shared, IsNearest};

/// An item with a name.
pub trait Named: Copy {
    // The name.
    ghost text: { Self → List ℕ };

    /// The name.
    fn name(self) -> &'static str
        ensures { result.now ≡ text self };
}

/// One of these with the longest common prefix with the name, if that has more than `least` bytes; otherwise `None`.
/// Allocates nothing.
pub fn nearest<T: Named>(known: &[T], name: &str, least: usize) -> Option<T>
    ensures { IsNearest T.text known.now name.now least result }
{
    let mut found = None;
    let mut most = least;
    for it in known {
        let count = shared_len(it.name(), name);
        if count > most {
            found = Some(*it);
            most = count;
        }
    }
    found
}

// The length of the longest common prefix of two names.
fn shared_len(a: &str, b: &str) -> usize
    ensures { result ≡ shared a.now b.now }
{
    a.bytes().zip(b.bytes()).take_while(|(x, y)| x == y).count()
}
