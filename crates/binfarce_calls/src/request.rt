//! What a call asks for, by its options.

ghost use Rattle.std.specs.Prelude.{◌≡◌, false};
ghost use Rattle.binfarce_bytes.specs.Selection.{section_of};
ghost use Rattle.binfarce_rows.specs.Json.{style_of};
ghost use Rattle.binfarce_words.specs.Words.{limit_given};
ghost use Rattle.binfarce_words.specs.WordViews.{given_view};
ghost use Rattle.binfarce_words.specs.declared.flag.Flag.TheVariants.{Json};
ghost use Rattle.binfarce_calls.specs.Asked.{figures_asked, has, key_asked, kind_asked, listing_asked, naming_asked, order_asked, section_asked, style_asked, table_asked};

use binfarce_figures::key::{Grouping, Key};
use binfarce_figures::order::Order;
use binfarce_figures::rows::{Naming, Shown};
use binfarce_figures::sums::Figures;
use binfarce_jobs::show::{Kind, Request, Symbols};
use binfarce_limits::rows::RowLimit;
use binfarce_rows::json::Form;
use binfarce_tools::SymbolTable::{Dynsym, Symtab};
use binfarce_tools::tables::Selection;
use binfarce_words::command::Command;
use binfarce_words::flag::Flag::{
    All, Dynamic, First, Folded, Full, Json, NoTotal, Percent, Raw, Section, Sort, Std,
};
use binfarce_words::given::Arguments;
use binfarce_words::takes;

/// What `list`, `size` or `map` shows of each file, with these limits on rows.
pub fn request_of<'a>(
    command: Command,
    given: &Arguments<'a>,
    limits: &'a [RowLimit<'a>],
) -> Request<'a>
    ensures kind { result.kind ≡ kind_asked command (given_view given.now) }
    ensures table { result.symbols.which ≡ table_asked (given_view given.now) }
    ensures section { section_of result.symbols.selection ≡ section_asked false (given_view given.now) }
    ensures form { result.is_json ≡ has Json (given_view given.now) }
    ensures limit { result.limit ≡ limit_given (given_view given.now) }
    ensures limits { result.limits ≡ limits.entry }
{
    let kind = match command {
        Command::List => listing_of(given),
        Command::Map if given.has(Folded) => Kind::Stacks(given.has(Std)),
        Command::Map => {
            let figures = figures_of(given);
            Kind::Picture(figures.grouping, figures.first)
        }
        _ => Kind::Figures(figures_of(given)),
    };
    Request {
        kind,
        symbols: symbols_of(given, false),
        is_json: given.has(Json),
        limit: given.limit(),
        limits,
    }
}

// How function symbols are listed: in their order and whole, unless something else is asked for.
fn listing_of(given: &Arguments<'_>) -> Kind
    ensures { result ≡ listing_asked (given_view given.now) }
{
    let is_cut = given.has(Sort) || given.has(First) || given.has(NoTotal);
    if !is_cut && !given.has(Raw) && !given.has(Full) && !given.has(Json) {
        return Kind::Listing;
    }
    Kind::Rows(Shown {
        order: order_of(given),
        first: given.count(First),
        naming: naming_of(given),
        has_total: !is_cut,
    })
}

// What lines are sorted by.
fn order_of(given: &Arguments<'_>) -> Option<Order>
    ensures { result ≡ order_asked (given_view given.now) }
{
    match given.order()? {
        takes::Order::Address => Some(Order::Address),
        takes::Order::Size => Some(Order::Size),
        takes::Order::Name => Some(Order::Name),
    }
}

// What sizes are summed by, if anything is named.
fn key_of(given: &Arguments<'_>) -> Option<Key>
    ensures { result ≡ key_asked (given_view given.now) }
{
    match given.key()? {
        takes::Key::Crate => Some(Key::Crate),
        takes::Key::Module => Some(Key::Module),
        takes::Key::Function => Some(Key::Function),
        takes::Key::Generic => Some(Key::Generic),
        takes::Key::Section => Some(Key::Section),
    }
}

/// What is shown of a name.
pub fn naming_of(given: &Arguments<'_>) -> Naming
    ensures { result ≡ naming_asked (given_view given.now) }
{
    if given.has(Raw) {
        Naming::Stored
    } else if given.has(Full) {
        Naming::Complete
    } else {
        Naming::Trimmed
    }
}

/// What sizes are summed by, and how the sums are shown.
pub fn figures_of(given: &Arguments<'_>) -> Figures
    ensures { result ≡ figures_asked (given_view given.now) }
{
    Figures {
        grouping: Grouping {
            key: key_of(given).unwrap_or(Key::Crate),
            joins_std: given.has(Std),
        },
        first: given.count(First),
        has_percent: given.has(Percent),
    }
}

/// How rows of the file at a path are written.
pub fn form_of<'a>(given: &Arguments<'_>, path: &'a str) -> Form<'a>
    ensures { style_of result ≡ style_asked path.entry.now (given_view given.now) }
{
    if given.has(Json) {
        Form::Objects(path, "")
    } else {
        Form::Lines
    }
}

/// Which function symbols are taken: of the section that is named, or if none is, of `.text`; but of all sections for
/// sums by section, and where all are the default.
pub fn symbols_of<'a>(given: &Arguments<'a>, are_all: bool) -> Symbols<'a>
    ensures table { result.which ≡ table_asked (given_view given.now) }
    ensures section { section_of result.selection ≡ section_asked are_all (given_view given.now) }
{
    let which = if given.has(Dynamic) { Dynsym } else { Symtab };
    Symbols {
        which,
        selection: selection_of(given, are_all),
    }
}

fn selection_of<'a>(given: &Arguments<'a>, are_all: bool) -> Selection<'a>
    ensures { section_of result ≡ section_asked are_all (given_view given.now) }
{
    if given.has(All) {
        return Selection::All;
    }
    match given.value(Section) {
        Some(section) => Selection::Section(section),
        None if are_all || matches!(given.key(), Some(takes::Key::Section)) => Selection::All,
        None => Selection::Section(".text"),
    }
}
