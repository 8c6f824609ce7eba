// The records of a block file: what bytes begin with, and where its lists stand.
ghost use Rattle.std.specs.Prelude.{◌≡◌, ◌+◌, ◌*◌, ◌≤◌, length, IfOk};
ghost use Rattle.block_file.specs.Within.{BookInside, BlockInside, RecordInside, RoomsWithin, length_of};

use crate::fields::{self, HEAD, Head, word_at};
use block_checks::RoomLengths;

// The longest lists that are read: a book of 258 clusters and a block of 65,536 levels, and some entries more.
pub const MAP: usize = 14912;

pub const CONFIGS: usize = 774;

pub const SYMBOLS: usize = 33024;

pub const READY: usize = 66048;

pub const LEVELS: usize = 65600;

// The longest rooms that are lent: the trellis needs 26,624 choice bytes at most, and rows of 52.
pub const CHOICES: usize = 26688;

pub const ROW: usize = 64;

// The lengths of an entry: of a map or of configurations, and of all other lists.
const BYTE: usize = 1;

const WORD: usize = 4;

// Why bytes begin with no whole record: they end before it does; or it is unreadable, since its tag is unknown, or one of its lists or rooms longer than may be.
#[derive(Clone, Copy, PartialEq, Eq)]
pub enum Flaw {
    Short,
    Unreadable,
}

// A list: where its entries start, how many there are, and where the next field stands.
#[derive(Clone, Copy)]
pub struct List {
    pub start: usize,
    pub count: usize,
    pub end: usize,
}

// The list whose length stands at `at`, of entries of `size` bytes each.
fn list_at(bytes: &[u8], at: usize, most: usize, size: usize) -> Result<List, Flaw>
    requires { (at ≤ length bytes.now) × ((most ≤ 66048) × (size ≤ 4)) }
    ensures { IfOk result (λ list. (list.start + size * list.count ≤ list.end) × ((list.end ≤ length bytes.now) × (list.count ≤ most))) }
{
    if bytes.len() - at < 4 {
        return Err(Flaw::Short);
    }
    let count = word_at(bytes, at) as usize;
    if most < count {
        return Err(Flaw::Unreadable);
    }
    if bytes.len() - at - 4 < size * count {
        return Err(Flaw::Short);
    }
    Ok(List {
        start: at + 4,
        count,
        end: at + 4 + size * count,
    })
}

// A book's record: its number of clusters and its lists. It ends where the last of them does.
#[derive(Clone, Copy)]
pub struct BookRecord {
    pub clusters: u32,
    pub map: List,
    pub configs: List,
    pub symbols: List,
    pub ready: List,
}

// The length of the tag and the number of clusters, which begin a book's record.
const BOOK_HEAD: usize = 5;

fn book_record(bytes: &[u8]) -> Result<BookRecord, Flaw>
    ensures { IfOk result (λ book. BookInside book (length bytes.now)) }
{
    if bytes.len() < BOOK_HEAD {
        return Err(Flaw::Short);
    }
    let map = list_at(bytes, BOOK_HEAD, MAP, BYTE)?;
    let configs = list_at(bytes, map.end, CONFIGS, BYTE)?;
    let symbols = list_at(bytes, configs.end, SYMBOLS, WORD)?;
    let ready = list_at(bytes, symbols.end, READY, WORD)?;
    Ok(BookRecord {
        clusters: word_at(bytes, 1),
        map,
        configs,
        symbols,
        ready,
    })
}

// A room's length, of which no more than `most` may be asked for.
fn room_at(bytes: &[u8], at: usize, most: usize) -> Result<usize, Flaw>
    requires { at + 4 ≤ length bytes.now }
    ensures { IfOk result (λ n. n ≤ most) }
{
    let asked = word_at(bytes, at) as usize;
    if most < asked {
        return Err(Flaw::Unreadable);
    }
    Ok(asked)
}

// The lengths of the rooms that a block's record asks for.
fn rooms_at(bytes: &[u8]) -> Result<RoomLengths, Flaw>
    requires { 53 ≤ length bytes.now }
    ensures { IfOk result RoomsWithin }
{
    Ok(RoomLengths {
        choices: room_at(bytes, 41, CHOICES)?,
        row_a: room_at(bytes, 45, ROW)?,
        row_b: room_at(bytes, 49, ROW)?,
    })
}

// A block's record: what comes before its lists, and these.
#[derive(Clone, Copy)]
pub struct BlockRecord {
    pub head: Head,
    pub rooms: RoomLengths,
    pub levels: List,
    pub scan: List,
    pub source: List,
    pub inverse: List,
}

fn block_record(bytes: &[u8]) -> Result<BlockRecord, Flaw>
    ensures { IfOk result (λ block. BlockInside block (length bytes.now)) }
{
    if bytes.len() < HEAD {
        return Err(Flaw::Short);
    }
    let rooms = rooms_at(bytes)?;
    let levels = list_at(bytes, HEAD, LEVELS, WORD)?;
    let scan = list_at(bytes, levels.end, LEVELS, WORD)?;
    let source = list_at(bytes, scan.end, LEVELS, WORD)?;
    let inverse = list_at(bytes, source.end, LEVELS, WORD)?;
    Ok(BlockRecord {
        head: fields::head_at(bytes),
        rooms,
        levels,
        scan,
        source,
        inverse,
    })
}

// The length of a half-width's record: tag and number.
const WIDTH_RECORD: usize = 5;

fn width_record(bytes: &[u8]) -> Result<u32, Flaw>
    ensures { IfOk result (λ w. 5 ≤ length bytes.now) }
{
    if bytes.len() < WIDTH_RECORD {
        return Err(Flaw::Short);
    }
    Ok(word_at(bytes, 1))
}

// A book or a half-width holds for the blocks behind it.
#[derive(Clone, Copy)]
pub enum Record {
    Book(BookRecord),
    Block(BlockRecord),
    Width(u32),
}

impl Record {
    // How many bytes it takes.
    pub fn length(self) -> usize
        ensures { result ≡ length_of self }
    {
        match self {
            Record::Book(book) => book.ready.end,
            Record::Block(block) => block.inverse.end,
            Record::Width(_) => WIDTH_RECORD,
        }
    }
}

// The record that `bytes` begins with.
pub fn record_of(bytes: &[u8]) -> Result<Record, Flaw>
    ensures { IfOk result (λ r. RecordInside r (length bytes.now)) }
{
    match bytes.first() {
        None => Err(Flaw::Short),
        Some(b'K') => Ok(Record::Book(book_record(bytes)?)),
        Some(b'C') => Ok(Record::Block(block_record(bytes)?)),
        Some(b'W') => Ok(Record::Width(width_record(bytes)?)),
        Some(_) => Err(Flaw::Unreadable),
    }
}
