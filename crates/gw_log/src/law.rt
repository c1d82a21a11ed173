//! What was written reads back.

ghost use Rattle.gw_log.specs.LogTexts.{ReadsAndWrites, WritesAndReads};

/// The text of a record reads back as the record that a log says in its place: without padding, with zeros in octets 5 to 7
/// and for the octets of a remote frame, and with the flags and bits of the identifier that the text has digits for.
pub fn reads_back()
    ensures { WritesAndReads }
{}

/// What was read and is written reads back as the same record: where a text means a record, its `frame_text` does.
pub fn writes_back()
    ensures { ReadsAndWrites }
{}
