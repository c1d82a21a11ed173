//! Identifiers and NAMEs.

use gw_ident::{CanId, Name};

type Row = (u32, u32, u8, u8, u8, u8, u8, bool, u8, u8);

/// The rows of docs/IDENTIFIERS.md: word, PGN, priority, EDP, DP, PF, PS, whether PDU1, destination
/// and source.
const ROWS: [Row; 19] = [
    (0x8C00000B, 0, 3, 0, 0, 0, 0, true, 0, 11),
    (0x8CF00203, 61442, 3, 0, 0, 240, 2, false, 255, 3),
    (0x8CF00300, 61443, 3, 0, 0, 240, 3, false, 255, 0),
    (0x8CF00400, 61444, 3, 0, 0, 240, 4, false, 255, 0),
    (0x98E8FF00, 59392, 6, 0, 0, 232, 255, true, 255, 0),
    (0x98EA00F9, 59904, 6, 0, 0, 234, 0, true, 0, 249),
    (0x9CEBFF00, 60160, 7, 0, 0, 235, 255, true, 255, 0),
    (0x9CECFF00, 60416, 7, 0, 0, 236, 255, true, 255, 0),
    (0x98EEFF80, 60928, 6, 0, 0, 238, 255, true, 255, 128),
    (0x98EEFFFE, 60928, 6, 0, 0, 238, 255, true, 255, 254),
    (0x98EF1234, 61184, 6, 0, 0, 239, 18, true, 18, 52),
    (0x99EF1234, 126720, 6, 0, 1, 239, 18, true, 18, 52),
    (0x98FECA00, 65226, 6, 0, 0, 254, 202, false, 255, 0),
    (0x98FEE500, 65253, 6, 0, 0, 254, 229, false, 255, 0),
    (0x98FEEE00, 65262, 6, 0, 0, 254, 238, false, 255, 0),
    (0x98FEF100, 65265, 6, 0, 0, 254, 241, false, 255, 0),
    (0x98FEF200, 65266, 6, 0, 0, 254, 242, false, 255, 0),
    (0x98FF0027, 65280, 6, 0, 0, 255, 0, false, 255, 39),
    (0x98FFFF27, 65535, 6, 0, 0, 255, 255, false, 255, 39),
];

/// Whether an identifier has the fields of a row.
fn is_row(id: CanId, row: &Row) -> bool {
    let (word, pgn, priority, edp, dp, pf, ps, is_pdu1, destination, source) = *row;
    id.word() == word
        && id.pgn() == pgn
        && id.priority() == priority
        && id.edp() == edp
        && id.dp() == dp
        && id.pf() == pf
        && id.ps() == ps
        && (id.pf() < 240) == is_pdu1
        && id.destination() == Some(destination)
        && id.source() == source
}

#[test]
fn well_known_groups(rt: HostRuntime) {
    for row in &ROWS {
        assert!(rt; is_row(CanId::from_word(row.0), row), "{:x}", row.0);
    }
}

#[test]
fn standard_remote_and_error_frames(rt: HostRuntime) {
    for word in [0x1FFFFFFF, 0xD8EF1234, 0xB8EF1234, 0x00000123] {
        let id = CanId::from_word(word);
        assert!(rt; !id.is_extended_data(), "{word}");
        assert!(rt; id.destination().is_none(), "{word}");
    }
}

#[test]
fn fields_of_a_name(rt: HostRuntime) {
    let name = Name::from_bytes([0x01, 0x00, 0x40, 0x00, 0x00, 0x00, 0x00, 0x80]);
    assert!(rt; name.value() == 0x8000000000400001);
    assert!(rt; name.identity() == 1);
    assert!(rt; name.manufacturer() == 2);
    assert!(rt; name.arbitrary_capable());
    assert!(rt; name.ecu_instance() == 0);
    assert!(rt; name.function_instance() == 0);
    assert!(rt; name.function() == 0);
    assert!(rt; name.reserved() == 0);
    assert!(rt; name.vehicle_system() == 0);
    assert!(rt; name.vehicle_system_instance() == 0);
    assert!(rt; name.industry_group() == 0);
}

#[test]
fn the_lower_name_comes_first(rt: HostRuntime) {
    // the last octet is the most significant
    let lower = Name::from_bytes([0xFF, 0xFF, 0xFF, 0xFF, 0xFF, 0xFF, 0xFF, 0x00]);
    let higher = Name::from_bytes([0x00, 0x00, 0x00, 0x00, 0x00, 0x00, 0x00, 0x01]);
    assert!(rt; lower < higher);
}
