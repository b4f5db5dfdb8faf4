//! A case: a run over files in memory, and what it ends with.

use pgr_outside::{MemorySink, MemoryStore};
use pgr_run::{Status, run};
use std::alloc::{AllocError, Global};
use std::process::Abort;
use std::test::Fail;

/// What a run is over: the content of its files, and which calls fail, each by its number, counted from 1.
#[derive(Clone, Copy)]
pub(crate) struct Case<'a> {
    /// The content of `a.csv`, or none where the store hasn't that file.
    pub edges: Option<&'a [u8]>,
    /// The content of `p.csv`.
    pub pairs: &'a [u8],
    /// The content of `points.csv`.
    pub points: &'a [u8],
    /// The content of `r.csv`.
    pub restrictions: &'a [u8],
    /// The reads of the store that fail.
    pub failing_reads: &'a [u64],
    /// The writes to the output that fail.
    pub failing_writes: &'a [u64],
    /// The writes of a message that fail.
    pub failing_messages: &'a [u64],
}

/// How a run ended: its status, and what its two sinks hold.
#[derive(Drop)]
struct Ended {
    status: Status,
    output: Vec<u8>,
    message: Vec<u8>,
}

impl<'a> Case<'a> {
    /// A case over these edges, where the other files are empty and no call fails.
    pub(crate) fn over(edges: &'a [u8]) -> Case<'a> {
        Case {
            edges: Some(edges),
            pairs: b"",
            points: b"",
            restrictions: b"",
            failing_reads: &[],
            failing_writes: &[],
            failing_messages: &[],
        }
    }

    /// The line of words is answered with a table of these rows under this header, and no message.
    pub(crate) fn answers(
        self,
        rt: &(impl Abort + AllocGlobal),
        line: &str,
        header: &str,
        rows: &str,
    ) -> Result<(), Fail> {
        let mut table = String::from_str(rt.alloc(), header)?;
        table.push_str(rows)?;
        self.ends(rt, line, Status::Done, table.as_str(), "")
    }

    /// The line of words is refused with this status and this message, and no table.
    pub(crate) fn refuses(
        self,
        rt: &(impl Abort + AllocGlobal),
        line: &str,
        status: Status,
        message: &str,
    ) -> Result<(), Fail> {
        self.ends(rt, line, status, "", message)
    }

    /// A run of the line of words ends with this status, this output and this message.
    pub(crate) fn ends(
        self,
        rt: &(impl Abort + AllocGlobal),
        line: &str,
        status: Status,
        output: &str,
        message: &str,
    ) -> Result<(), Fail> {
        let ended = self.run(rt.alloc(), line)?;
        assert_eq!(rt; ended.status, status, "{line}");
        assert_eq!(rt; ended.output.as_slice(), output.as_bytes(), "{line}");
        assert_eq!(rt; ended.message.as_slice(), message.as_bytes(), "{line}");
        Ok(())
    }

    /// How a run of the line of words ends.
    fn run(self, alloc: Global, line: &str) -> Result<Ended, Fail> {
        let words = words_in(alloc, line)?;
        let mut store = self.store(alloc)?;
        let mut out = make_sink(alloc, self.failing_writes)?;
        let mut err = make_sink(alloc, self.failing_messages)?;
        let status = run(alloc, words.as_slice(), &mut store, &mut out, &mut err);
        Ok(Ended {
            status,
            output: Vec::from_slice(alloc, out.bytes())?,
            message: Vec::from_slice(alloc, err.bytes())?,
        })
    }

    /// The store of the files, which gives at most 16 bytes at a read.
    fn store(self, alloc: Global) -> Result<MemoryStore, AllocError> {
        let mut files = Vec::new(alloc);
        if let Some(edges) = self.edges {
            let name = String::from_str(alloc, "a.csv")?;
            files.push((name, Vec::from_slice(alloc, edges)?))?;
        }
        let name = String::from_str(alloc, "p.csv")?;
        files.push((name, Vec::from_slice(alloc, self.pairs)?))?;
        let name = String::from_str(alloc, "points.csv")?;
        files.push((name, Vec::from_slice(alloc, self.points)?))?;
        let name = String::from_str(alloc, "r.csv")?;
        files.push((name, Vec::from_slice(alloc, self.restrictions)?))?;
        let fails = Vec::from_slice(alloc, self.failing_reads)?;
        Ok(MemoryStore::new(files, 16, fails))
    }
}

/// A sink with more room than any case needs, which takes a line at a write.
fn make_sink(alloc: Global, failing: &[u64]) -> Result<MemorySink, Fail> {
    let fails = Vec::from_slice(alloc, failing)?;
    Ok(MemorySink::with_room(alloc, 16384, 4096, fails)?)
}

/// The words of a line, which are separated by spaces.
fn words_in(alloc: Global, line: &str) -> Result<Vec<String>, AllocError> {
    let mut words = Vec::new(alloc);
    for word in line.split_whitespace() {
        words.push(String::from_str(alloc, word)?)?;
    }
    Ok(words)
}
