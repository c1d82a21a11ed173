//! Which sets an index has, and where they stand.

ghost use Rattle.std.specs.Prelude.{◌≡◌, ◌/◌, ◌%◌, ◌<◌, ◌≤◌};
ghost use Rattle.gw_table.specs.Sections.{start_property, property_of, length_of, IsSection, row_at, row_of_page};

use crate::refusal::Field;
use crate::rule_set::Property;
use crate::table::{GREATEST_OCTET, PDU2};

/// So many numbers has a row, and so many groups a page.
pub const NUMBERS: u32 = 256;

/// The set of the rules that pass.
pub const PASSING: u32 = 0;

/// The set of each ingress port, where the ports have no row.
pub const ANY_PORT: u32 = 1;

/// The sets of the destinations, from 255 down: that of 255, which each frame of PDU2 has, stands beside the two above.
pub const DESTINATIONS: u32 = 2;

/// The sets of the sources.
pub const SOURCES: u32 = 258;

/// The sets of the first groups of the 1024 pages: two bits of data pages, and the PDU format (SAE J1939-21).
pub const PAGES: u32 = 514;

/// The rows, one behind another.
pub const ROWS: u32 = 1538;

/// So many rows there can be: one of the ingress ports, and one of each page of PDU2.
pub const MOST_ROWS: usize = 65;

/// The row of the ingress ports.
pub const PORTS: u32 = 0;

/// So many pages of PDU2 has a data page.
const PDU2_PAGES: u32 = 16;

/// Sets that stand one behind another.
#[derive(Clone, Copy)]
pub enum Section {
    /// What each index has.
    Start,
    /// The sets of 256 numbers of a field, from the least on.
    Row(Field, u32),
}

/// The sets of 256 numbers of a field, which are there where a range begins or ends among the numbers.
#[derive(Clone, Copy)]
pub struct Row {
    pub field: Field,
    pub least: u32,
    /// Where the set stands that all of them have otherwise.
    pub whole: u32,
}

impl Section {
    /// How many sets the section has.
    pub fn len(self) -> u32
        ensures { result ≡ length_of self }
    {
        match self {
            Section::Start => ROWS,
            Section::Row(..) => NUMBERS,
        }
    }

    /// What the rules of one of its sets have in common.
    pub fn property(self, number: u32) -> Property
        requires section { IsSection self }
        requires number { number < length_of self }
        ensures { result ≡ property_of self number }
    {
        match self {
            Section::Start => start_property(number),
            Section::Row(field, least) => Property::Holds(field, least + number),
        }
    }
}

fn start_property(position: u32) -> Property
    requires { position < 1538 }
    ensures { result ≡ start_property position }
{
    if position < ANY_PORT {
        Property::Passes
    } else if position < DESTINATIONS {
        Property::Holds(Field::From, 0)
    } else if position < SOURCES {
        Property::Holds(
            Field::Destination,
            GREATEST_OCTET - (position - DESTINATIONS),
        )
    } else if position < PAGES {
        Property::Holds(Field::Source, position - SOURCES)
    } else {
        Property::Holds(Field::Pgn, (position - PAGES) * NUMBERS)
    }
}

/// The row of a number below 65: the ingress ports have the first, and the pages of PDU2 the others.
pub fn row_at(number: u32) -> Row
    requires { number < 65 }
    ensures { result ≡ row_at number }
{
    if number == PORTS {
        return Row {
            field: Field::From,
            least: 0,
            whole: ANY_PORT,
        };
    }
    let page = (number - 1) / PDU2_PAGES * NUMBERS + PDU2 + (number - 1) % PDU2_PAGES;
    Row {
        field: Field::Pgn,
        least: page * NUMBERS,
        whole: PAGES + page,
    }
}

/// The number of the row of a page of PDU2.
pub fn row_of_page(page: u32) -> u32
    requires below { page < 1024 }
    requires pdu2 { 240 ≤ page % 256 }
    ensures { result ≡ row_of_page page }
{
    1 + page / NUMBERS * PDU2_PAGES + (page % NUMBERS - PDU2)
}
