//! The front of a function type.

ghost use Rattle.std.specs.Option.{ForSome};
ghost use Rattle.std.specs.Str.{IsAscii};

/// `[<binder>] ["U"] ["K" <abi>]`, the front of a `<fn-sig>`.
#[derive(Clone, Copy)]
pub struct Signature<'a> {
    /// How many lifetimes it announces.
    pub binder: u64,
    pub is_unsafe: bool,
    /// The ABI's name, ASCII, with `_` for `-`.
    pub abi: Option<&'a str>,
    ghost ascii: { ForSome abi (λ a. IsAscii a.now) },
}
