//! The frames of a log, in lists of the ports that take them.

ghost use Rattle.std.specs.Prelude.{◌≡◌, ◌<◌, ◌++◌, ◌∷◌, ◌==◌, [], ℕ, length, map, if◌then◌else◌, slice_index_or, vec_len};
ghost use Rattle.std.specs.Prelude.{Some, option_to_list, IfOk, OnOk};
ghost use Rattle.gw_log.specs.LogLines.{line_of};
ghost use Rattle.gw_judge.specs.Judged.{log_lines};
ghost use Rattle.gw_judge.specs.Interfaces.{port_named, taken};
ghost use Rattle.gw_run.specs.Logs.{taken_at, log_frames, named_inputs, begins, is_pcap, no_log};

use crate::log_notes::LogNotes;
use gw_frame::Frame;
use gw_input::position_of;
use gw_judge::{LineNotes, NamedInterface, NoLog, port_named};
use gw_log::read_line;
use std::alloc::{AllocError, Global};

/// The frames of a log that each of so many ports takes, where its interfaces are named for ports. What a person should know of
/// the log's other lines is noted.
pub(crate) fn named_lists(
    alloc: Global,
    names: &[NamedInterface],
    ports: usize,
    log: &[u8],
    notes: &mut LogNotes,
) -> Result<Vec<Vec<Frame>>, AllocError>
    ensures ports { IfOk result (λ lists. vec_len lists ≡ ports) }
    ensures frames { IfOk result (λ lists. map (λ list. list.items) lists.items ≡ named_inputs names.now ports log.now) }
{
    let mut lists = empty_lists(alloc, ports)?;
    take_log(lists.as_mut_slice(), names, log, notes)?;
    Ok(lists)
}

/// So many lists without a frame.
pub(crate) fn empty_lists(alloc: Global, ports: usize) -> Result<Vec<Vec<Frame>>, AllocError>
    ensures ports { IfOk result (λ lists. vec_len lists ≡ ports) }
    ensures empty { IfOk result (λ lists. (k : ℕ) (d : _) → k < ports → (slice_index_or lists.items k d).items ≡ []) }
{
    let mut lists = Vec::new(alloc);
    for _ in 0..ports {
        lists.push(Vec::new(alloc))?;
    }
    Ok(lists)
}

/// Puts the frames of a log behind those of the lists, each on that of the port that takes it.
pub(crate) fn take_log(
    lists: &mut [Vec<Frame>],
    names: &[NamedInterface],
    log: &[u8],
    notes: &mut LogNotes,
) -> Result<(), AllocError>
    ensures ports { length lists.new ≡ length lists.old }
    ensures taken { OnOk result ((k : ℕ) (d : _) → k < length lists.old
        → (slice_index_or lists.new k d).items
        ≡ (slice_index_or lists.old k d).items ++ taken_at (port_named names.now) k log.now) }
{
    let mut rest = log;
    'lines: while !rest.is_empty() {
        let (line, more) = first_line(rest);
        take_line(lists, names, line, notes)?;
        rest = more;
    }
    Ok(())
}

/// The frames of a log's lines, whatever their interfaces. What a person should know of the log's other lines is noted.
pub(crate) fn log_frames(
    alloc: Global,
    log: &[u8],
    notes: &mut LogNotes,
) -> Result<Vec<Frame>, AllocError>
    ensures { IfOk result (λ frames. frames.items ≡ log_frames log.now) }
{
    let mut frames = Vec::new(alloc);
    let mut rest = log;
    'lines: while !rest.is_empty() {
        let (line, more) = first_line(rest);
        if let Some(frame) = line_frame(line, notes) {
            frames.push(frame)?;
        }
        rest = more;
    }
    Ok(frames)
}

/// The frame of a line, if the line says one.
fn line_frame(line: &[u8], notes: &mut LogNotes) -> Option<Frame>
    ensures { option_to_list result ≡ taken (λ interface. Some 0) 0 (line_of line.now) }
{
    notes.see_line();
    match read_line(line) {
        Ok(said) => said.map(|said| *said.frame()),
        Err(why) => {
            notes.see_refused(why);
            None
        }
    }
}

/// The first line of a log with its end, and what stands behind it.
pub(crate) fn first_line(log: &[u8]) -> (&[u8], &[u8])
    requires { 0 < length log.now }
    ensures line { log_lines log.now ≡ result.0.now ∷ log_lines result.1.now }
    ensures less { length result.1.now < length log.now }
{
    let end = position_of(b'\n', log);
    if end < log.len() {
        log.split_at(end + 1)
    } else {
        (log, &[])
    }
}

/// Puts the frame of a line behind those of the list of the port that takes it.
fn take_line(
    lists: &mut [Vec<Frame>],
    names: &[NamedInterface],
    line: &[u8],
    notes: &mut LogNotes,
) -> Result<(), AllocError>
    ensures ports { length lists.new ≡ length lists.old }
    ensures taken { OnOk result ((k : ℕ) (d : _) → k < length lists.old
        → (slice_index_or lists.new k d).items
        ≡ (slice_index_or lists.old k d).items ++ taken (port_named names.now) k (line_of line.now)) }
{
    notes.see_line();
    match read_line(line) {
        Ok(Some(said)) => match port_named(names, said.interface()) {
            Some(port) => put(lists, port, *said.frame()),
            None => {
                notes.see_untaken(said.interface());
                Ok(())
            }
        },
        Ok(None) => Ok(()),
        Err(why) => {
            notes.see_refused(why);
            Ok(())
        }
    }
}

/// Puts a frame behind those of a port's list, where the port is there.
fn put(lists: &mut [Vec<Frame>], port: u8, frame: Frame) -> Result<(), AllocError>
    ensures ports { length lists.new ≡ length lists.old }
    ensures put { OnOk result ((k : ℕ) (d : _) → k < length lists.old
        → (slice_index_or lists.new k d).items
        ≡ (slice_index_or lists.old k d).items ++ (if port == k then frame ∷ [] else [])) }
{
    let index = usize::from(port);
    if index < lists.len() {
        lists[index].push(frame)?;
    }
    Ok(())
}

/// What octets are, as their first ones tell, where they are no log.
pub(crate) fn no_log(octets: &[u8]) -> Option<NoLog>
    ensures { result ≡ no_log octets.now }
{
    if is_pcap(octets) {
        Some(NoLog::Pcap)
    } else if begins(0x0a, 0x0d, 0x0d, 0x0a, octets) {
        Some(NoLog::PcapNg)
    } else if octets.len() >= 2 && octets[0] == 0x1f && octets[1] == 0x8b {
        Some(NoLog::Gzip)
    } else {
        None
    }
}

/// Whether octets begin as a capture of classic pcap, in either order of octets.
fn is_pcap(octets: &[u8]) -> bool
    ensures { result ≡ is_pcap octets.now }
{
    begins(0xa1, 0xb2, 0xc3, 0xd4, octets)
        || begins(0xd4, 0xc3, 0xb2, 0xa1, octets)
        || begins(0xa1, 0xb2, 0x3c, 0x4d, octets)
        || begins(0x4d, 0x3c, 0xb2, 0xa1, octets)
}

/// Whether octets begin with these four.
fn begins(a: u8, b: u8, c: u8, d: u8, octets: &[u8]) -> bool
    ensures { result ≡ begins a b c d octets.now }
{
    octets.len() >= 4 && octets[0] == a && octets[1] == b && octets[2] == c && octets[3] == d
}
