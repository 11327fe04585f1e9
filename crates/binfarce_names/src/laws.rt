//! Laws of names, proved from their definitions.

ghost use Rattle.binfarce_names.specs.Laws.{
  HasAnAnswer,
  HasOneAnswer,
  UnfoldsOneWay,
  ReadsOneWay,
  NamesAnEarlierPosition,
  KnowsNoLimit,
  Counts,
};
ghost use Rattle.std.specs.Prelude.{◌≡◌, ◌↔◌, IsTrue, Some, None, [], codes, encode_utf8_all};
ghost use Rattle.binfarce_names.specs.Named.{IsNamed, unknown};
ghost use Rattle.binfarce_names.specs.declared.demangle.Kind.TheVariants.{V0};

use crate::demangle::{Kind, demangle};

/// A text has an answer, and no more than one.
#[tactic(auto, unfolding(crate::specs::Named::IsNamed))]
pub fn has_one_answer(name: &str)
    ensures some { HasAnAnswer name.now }
    ensures one { HasOneAnswer name.now }
{
    let _demangled = demangle(name);
}

/// Kinds are equal where they are the same.
pub fn kinds_compare(kind: Kind, other: Kind) -> bool
    ensures { IsTrue result ↔ (kind ≡ other) }
{
    kind == other
}

/// A position unfolds to at most one tree.
pub fn unfolds_one_way(name: &[u8])
    ensures { UnfoldsOneWay name.now }
{
    let _ = name;
}

/// A position reads to at most one tree.
pub fn reads_one_way(name: &[u8])
    ensures { ReadsOneWay name.now }
{
    let _ = name;
}

/// A back reference names an earlier position.
pub fn names_an_earlier_position(name: &[u8])
    ensures { NamesAnEarlierPosition name.now }
{
    let _ = name;
}

/// The texts and the crate of a name don't depend on the limits.
pub fn knows_no_limit(name: &[u8])
    ensures { KnowsNoLimit name.now }
{
    let _ = name;
}

/// Worked names: what the definitions give for each.
pub fn worked_names()
    ensures plain_path { IsNamed (codes "_RNvC6_123foo3bar")
        (record {
          complete = codes "123foo[0]::bar";
          trimmed = codes "123foo::bar";
          crate_name = Some (codes "123foo");
          kind = V0;
        }) }
    ensures disambiguator { IsNamed (codes "_RNvCs_1a1b")
        (record {
          complete = codes "a[1]::b";
          trimmed = codes "a::b";
          crate_name = Some (codes "a");
          kind = V0;
        }) }
    ensures punycode { IsNamed (codes "_RNvC1cu9bcher_kva")
        (record {
          complete = encode_utf8_all (codes "c[0]::bücher");
          trimmed = encode_utf8_all (codes "c::bücher");
          crate_name = Some (codes "c");
          kind = V0;
        }) }
    ensures llvm_ending { IsNamed (codes "_RC3foo.llvm.9D1C9369")
        (record {
          complete = codes "foo[0]";
          trimmed = codes "foo";
          crate_name = Some (codes "foo");
          kind = V0;
        }) }
    ensures impl_path { IsNamed (codes "_RMC0INtC8arrayvec8ArrayVechKj7b_E")
        (record {
          complete = codes "<arrayvec[0]::ArrayVec<u8, 123: usize>>";
          trimmed = codes "<arrayvec::ArrayVec<u8, 123: usize>>";
          crate_name = Some [];
          kind = V0;
        }) }
    ensures placeholder { IsNamed (codes "_RMC0Ahjp")
        (record {
          complete = codes "<[u8; _: usize]>";
          trimmed = codes "<[u8; _: usize]>";
          crate_name = Some [];
          kind = V0;
        }) }
    ensures tuple_of_one { IsNamed (codes "_RMC0ThE")
        (record {
          complete = codes "<(u8,)>";
          trimmed = codes "<(u8,)>";
          crate_name = Some [];
          kind = V0;
        }) }
    ensures binders { IsNamed (codes "_RMC0FG_TRL0_hFG_B6_EuEEu")
        (record {
          complete = codes "<for<'a> fn((&'a u8, for<'b> fn(&'b u8)))>";
          trimmed = codes "<for<'a> fn((&'a u8, for<'b> fn(&'b u8)))>";
          crate_name = Some [];
          kind = V0;
        }) }
    ensures bindings { IsNamed (codes "_RMC0DNtC1a1tp1xhp1ymEL_")
        (record {
          complete = codes "<dyn a[0]::t<x = u8, y = u32>>";
          trimmed = codes "<dyn a::t<x = u8, y = u32>>";
          crate_name = Some [];
          kind = V0;
        }) }
    ensures below_a_trait { IsNamed (codes "_RMC0DNtINvC1a1fhE1tp1xmEL_")
        (record {
          complete = codes "<dyn a[0]::f<u8>::t<x = u32>>";
          trimmed = codes "<dyn a::f<u8>::t<x = u32>>";
          crate_name = Some [];
          kind = V0;
        }) }
    ensures back_reference { IsNamed (codes "_RINvINvC1a1fhE1gB2_E")
        (record {
          complete = codes "a[0]::f::<u8>::g::<a[0]::f<u8>>";
          trimmed = codes "a::f::<u8>::g::<a::f<u8>>";
          crate_name = Some (codes "a");
          kind = V0;
        }) }
    ensures invalid_target { IsNamed (codes "_RINvC1a1bB3_hE")
        (record {
          complete = codes "a[0]::b::<?, u8>";
          trimmed = codes "a::b::<?, u8>";
          crate_name = Some (codes "a");
          kind = V0;
        }) }
    ensures invalid_syntax { IsNamed (codes "_RYRL0_hC1a")
        (record {
          complete = codes "<&'? ? as ?>";
          trimmed = codes "<&'? ? as ?>";
          crate_name = None;
          kind = V0;
        }) }
    ensures shared { Counts (codes "MC0TTTTTTpB8_EB7_EB6_EB5_EB4_EB3_E") 14 192 }
    ensures lifetimes { Counts (codes "MC0FG_TRL0_hB6_EEu") 6 12 }
    ensures cycle { IsNamed (codes "_RNvB_1a") (unknown (codes "_RNvB_1a")) }
{}

/// Worked names with consts of the other types: what the definitions give for each.
pub fn worked_consts()
    ensures signed { IsNamed (codes "_RIC1aKan80_Kan0_E")
        (record {
          complete = codes "a[0]::<-128: i8, -0: i8>";
          trimmed = codes "a::<-128: i8, -0: i8>";
          crate_name = Some (codes "a");
          kind = V0;
        }) }
    ensures without_a_sign { IsNamed (codes "_RIC1aKl7fffffff_KipE")
        (record {
          complete = codes "a[0]::<2147483647: i32, _: isize>";
          trimmed = codes "a::<2147483647: i32, _: isize>";
          crate_name = Some (codes "a");
          kind = V0;
        }) }
    ensures above_64_bits { IsNamed (codes "_RIC1aKnn10000000000000000_E")
        (record {
          complete = codes "a[0]::<-0x10000000000000000: i128>";
          trimmed = codes "a::<-0x10000000000000000: i128>";
          crate_name = Some (codes "a");
          kind = V0;
        }) }
    ensures untyped { IsNamed (codes "_RIC1aKpE")
        (record {
          complete = codes "a[0]::<_>";
          trimmed = codes "a::<_>";
          crate_name = Some (codes "a");
          kind = V0;
        }) }
    ensures untyped_size { IsNamed (codes "_RMC0Ahp")
        (record {
          complete = codes "<[u8; _]>";
          trimmed = codes "<[u8; _]>";
          crate_name = Some [];
          kind = V0;
        }) }
    ensures booleans { IsNamed (codes "_RIC1aKb0_Kb1_E")
        (record {
          complete = codes "a[0]::<false: bool, true: bool>";
          trimmed = codes "a::<false: bool, true: bool>";
          crate_name = Some (codes "a");
          kind = V0;
        }) }
    ensures characters { IsNamed (codes "_RIC1aKc41_Kc27_Kc3b1_E")
        (record {
          complete = codes "a[0]::<'A': char, '\\u{27}': char, '\\u{3b1}': char>";
          trimmed = codes "a::<'A': char, '\\u{27}': char, '\\u{3b1}': char>";
          crate_name = Some (codes "a");
          kind = V0;
        }) }
    ensures invalid_syntax { IsNamed (codes "_RINvC1a3b2_KB6_E")
        (record {
          complete = codes "a[0]::b2_::<?: bool>";
          trimmed = codes "a::b2_::<?: bool>";
          crate_name = Some (codes "a");
          kind = V0;
        }) }
    ensures boolean_of_2 { IsNamed (codes "_RIC1aKb2_E") (unknown (codes "_RIC1aKb2_E")) }
    ensures surrogate { IsNamed (codes "_RIC1aKcd800_E") (unknown (codes "_RIC1aKcd800_E")) }
    ensures sign_of_a_placeholder { IsNamed (codes "_RIC1aKanpE") (unknown (codes "_RIC1aKanpE")) }
    ensures counted { Counts (codes "IC1aKan80_E") 2 3 }
{}
