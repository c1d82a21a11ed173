//! Why a policy is refused, and what C is told of it.

ghost use Rattle.std.specs.Prelude.{◌≡◌, Option};
ghost use Rattle.std.specs.Option.{option_map_or};
ghost use Rattle.gw_c.specs.Faults.{
  bare,
  counted,
  names_of,
  listing_names,
  code_names,
  assembler_names,
  table_names,
  path_of,
  first_places,
  Tells,
};

use crate::message::message;
use gw_input::{Place, refused_rule};
use gw_insn::ListRefusal;
use gw_table::TableRefusal;
use gw_text::AsmRefusal;
use gw_verify::{Cause, Path, Refused};

/// Where a refusal names no line, column, place, word or rule.
const NOWHERE: u32 = u32::MAX;

/// How many places of a path C is told.
const PATH: usize = 32;

/// How many octets a message has.
pub const MESSAGE: usize = 256;

/// Why a text or code gives no policy.
#[derive(Drop)]
pub enum Fault {
    /// 120: a text that is not UTF-8.
    NotUtf8,
    /// 10 to 13: a text that is no listing.
    Listing(ListRefusal),
    /// 20 to 30: code that is not accepted, and a path that leaves a scratch word unset.
    Code {
        refused: Refused,
        path: Option<Path>,
    },
    /// 40 to 49: a text that is no assembler text.
    Assembler(AsmRefusal),
    /// 50 to 55: a text that is no table, and where it is wrong.
    Table {
        why: TableRefusal,
        place: Option<Place>,
    },
    /// 100: memory was refused for the policy.
    OutOfMemory,
}

/// The number of a refusal, and what it names.
#[repr(C)]
#[derive(Clone, Copy)]
pub struct Names {
    pub number: u32,
    /// Of a text, from 1.
    pub line: u32,
    /// Of the line, in octets, from 1.
    pub column: u32,
    /// An instruction, from 0.
    pub place: u32,
    /// A scratch word.
    pub word: u32,
    /// A rule of a table, from 0.
    pub rule: u32,
}

/// `struct jgw_error`: the number of a refusal, what it names, and what is wrong.
#[repr(C)]
#[derive(Clone, Copy)]
pub struct Told {
    pub names: Names,
    /// How many instructions the path to an unset word has, and the first of them.
    pub steps: u32,
    pub path: [u32; PATH],
    /// UTF-8, with octets of 0 behind it.
    pub message: [u8; MESSAGE],
}

impl Names {
    /// Those of a refusal that names nothing.
    fn bare(number: u32) -> Names
        ensures { result ≡ bare number }
    {
        Names {
            number,
            line: NOWHERE,
            column: NOWHERE,
            place: NOWHERE,
            word: NOWHERE,
            rule: NOWHERE,
        }
    }
}

impl Fault {
    /// What C is told, where the fault is of this text. Code has none.
    pub fn told(&self, text: &[u8]) -> Told
        ensures { Tells self.now result }
    {
        let places = self.places();
        Told {
            names: self.names(),
            steps: counted(places.len()),
            path: first_places(places),
            message: message(self, text),
        }
    }

    fn names(&self) -> Names
        ensures { result ≡ names_of self.now }
    {
        match self {
            Fault::NotUtf8 => Names::bare(120),
            Fault::Listing(why) => listing_names(*why),
            Fault::Code { refused, .. } => code_names(refused.why, refused.place),
            Fault::Assembler(why) => assembler_names(why),
            Fault::Table { why, place } => table_names(why, *place),
            Fault::OutOfMemory => Names::bare(100),
        }
    }

    /// The places of the path.
    fn places(&self) -> &[u32]
        ensures { result.now ≡ path_of self.now }
    {
        match self {
            Fault::Code {
                path: Some(path),
                ..
            } => &path.places,
            _ => &[],
        }
    }
}

fn listing_names(why: ListRefusal) -> Names
    ensures { result ≡ listing_names why }
{
    let names = Names::bare(why.number());
    match why {
        ListRefusal::BadField { index } => Names {
            place: counted(index),
            ..names
        },
        _ => names,
    }
}

fn code_names(why: Cause, place: usize) -> Names
    ensures { result ≡ code_names why place }
{
    let names = Names::bare(why.number());
    match why {
        Cause::OutOfMemory => names,
        Cause::UnsetWord { word } => Names {
            place: counted(place),
            word,
            ..names
        },
        _ => Names {
            place: counted(place),
            ..names
        },
    }
}

fn assembler_names(why: &AsmRefusal) -> Names
    ensures { result ≡ assembler_names why.now }
{
    Names {
        line: counted_if(why.line()),
        ..Names::bare(why.number())
    }
}

fn table_names(why: &TableRefusal, place: Option<Place>) -> Names
    ensures { result ≡ table_names why.now place }
{
    let names = Names {
        rule: counted_if(refused_rule(why)),
        ..Names::bare(why.number())
    };
    match place {
        Some(place) => Names {
            line: counted(place.line),
            column: counted(place.column),
            ..names
        },
        None => names,
    }
}

/// The first places of a path, with 0 behind the last.
fn first_places(places: &[u32]) -> [u32; PATH]
    ensures { result ≡ first_places places.now }
{
    let count = places.len().min(PATH);
    let mut path = [0; PATH];
    path[..count].copy_from_slice(&places[..count]);
    path
}

/// A number as C is told it.
pub fn counted(number: usize) -> u32
    ensures { result ≡ counted number }
{
    u32::try_from(number).unwrap_or(NOWHERE)
}

/// The same where there is one.
fn counted_if(number: Option<usize>) -> u32
    ensures { result ≡ option_map_or counted number 4294967295 }
{
    match number {
        Some(number) => counted(number),
        None => NOWHERE,
    }
}
