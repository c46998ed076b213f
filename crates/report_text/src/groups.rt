//! Equal reports, counted.

ghost use Rattle.std.specs.Prelude.{◌≡◌, [], OnErr, OnOk};
ghost use Rattle.std.specs.List.{flat_map};
ghost use Rattle.report_text.specs.Groups.{counted, group_text};
ghost use Rattle.report_text.specs.ReportOf.{NamesAccesses, report_text};
ghost use Rattle.report_text.specs.Sink.{Writes};

use crate::memory::MemorySink;
use crate::pieces::{Piece, write_pieces};
use crate::report::write_report;
use crate::sink::{Sink, WriteError, write_all};
use access_types::{Report, Sites};
use indexmap::IndexMap;
use std::alloc::{AllocError, Global};
use std::marker::Model;

/// The texts of reports, each once, in the order in which they were first seen, with how often each
/// was seen. A count rests at 2^64 - 1.
#[derive(Drop)]
pub struct Groups {
    alloc: Global,
    counts: IndexMap<Vec<u8>, u64>,
}

impl Model for Groups {
    ghost use Rattle.std.specs.Prelude.{List, map};
    ghost use Rattle.report_text.specs.Groups.{Group};

    ghost Value = { List Group };

    ghost view = { λ groups. map (λ entry. (entry.0.items, entry.1)) groups.counts.entries };
}

impl Groups {
    /// No reports. Those that are added later take their memory from this allocator.
    pub fn new(alloc: Global) -> Groups
        ensures { result ≡ [] }
    {
        Groups {
            alloc,
            counts: IndexMap::new(alloc),
        }
    }

    /// Counts the report, of the accesses that its tickets name among the sites: its text once more.
    ///
    /// The only error is want of memory, which changes nothing.
    pub fn add(&mut self, report: &Report, sites: &Sites) -> Result<(), AllocError>
        requires { NamesAccesses sites.now report.now }
        ensures counted { OnOk result (self.new ≡ counted self.old (report_text sites.now report.now)) }
        ensures unchanged { OnErr result (self.new ≡ self.old) }
    {
        let mut sink = MemorySink::new(self.alloc);
        if write_report(report, sites, &mut sink).is_err() {
            return Err(AllocError);
        }
        let text = sink.into_bytes();
        let seen = self.counts.get(&text).copied().unwrap_or(0);
        self.counts.insert(text, seen.saturating_add(1))?;
        Ok(())
    }

    /// Writes each text, followed by how often it was seen.
    ///
    /// `SinkFailed`: the sink failed in this call, and holds a beginning of the text.
    pub fn write<K: Sink>(&self, sink: &mut K) -> Result<(), WriteError>
        ensures { Writes K.written K.failures result (flat_map group_text self.now)
            sink.old sink.new }
    {
        for (text, count) in self.counts.iter() {
            write_group(sink, text.as_slice(), *count)?;
        }
        Ok(())
    }
}

/// Writes a text, and how often it was seen.
#[tactic(auto, unfolding(crate::specs::Groups::group_text))]
fn write_group<K: Sink>(sink: &mut K, text: &[u8], count: u64) -> Result<(), WriteError>
    ensures { Writes K.written K.failures result (group_text (text.now, count)) sink.old sink.new }
{
    write_all(sink, text)?;
    write_pieces(
        sink,
        &[
            Piece::Text("seen "),
            Piece::Decimal(count),
            Piece::Text(" times\n"),
        ],
    )
}
