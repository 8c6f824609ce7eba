// A record's lists, copied to where the searches take them from.
#![tactic(auto)]

ghost use Rattle.std.specs.Prelude.{◌≡◌, length};
ghost use Rattle.block_file.specs.Within.{BookInside, BlockInside};
ghost use Rattle.block_lists.specs.Lengths.{BookHeld, lengths_in};
ghost use Rattle.block_lists.specs.Copied.{with_book, with_block};
ghost use Rattle.block_lists.specs.Zeros.{zeros};

use block_file::load;
use block_file::record::{
    BlockRecord, BookRecord, CHOICES, CONFIGS, LEVELS, MAP, READY, ROW, SYMBOLS,
};

// The arrays that lists are copied to, the searches' rooms, and the levels that a search works on. Of fixed length: the program takes no heap.
#[derive(Drop)]
pub struct Lists {
    pub map: [u8; MAP],
    pub configs: [u8; CONFIGS],
    pub symbols: [f32; SYMBOLS],
    pub ready: [f32; READY],
    pub levels: [i32; LEVELS],
    pub scan: [u32; LEVELS],
    pub source: [f32; LEVELS],
    pub inv_qm: [f32; LEVELS],
    pub work: [i32; LEVELS],
    pub choices: [u8; CHOICES],
    pub row_a: [f32; ROW],
    pub row_b: [f32; ROW],
}

impl Lists {
    // All zeros. (`level_search` makes its arrays in `main`: built without a proof, what a call hands back lies on the stack twice.)
    pub fn new() -> Lists
        ensures { result ≡ zeros }
    {
        Lists {
            map: [0; MAP],
            configs: [0; CONFIGS],
            symbols: [0.0; SYMBOLS],
            ready: [0.0; READY],
            levels: [0; LEVELS],
            scan: [0; LEVELS],
            source: [0.0; LEVELS],
            inv_qm: [0.0; LEVELS],
            work: [0; LEVELS],
            choices: [0; CHOICES],
            row_a: [0.0; ROW],
            row_b: [0.0; ROW],
        }
    }
}

// The latest book's number of clusters, and the lengths of its lists.
#[derive(Clone, Copy)]
pub struct BookLengths {
    pub clusters: u32,
    pub map: usize,
    pub configs: usize,
    pub symbols: usize,
    pub ready: usize,
}

// Before the first book.
pub fn no_book() -> BookLengths
    ensures { BookHeld result }
{
    BookLengths {
        clusters: 0,
        map: 0,
        configs: 0,
        symbols: 0,
        ready: 0,
    }
}

// Copies a book's lists to where they stay until the next one.
pub fn copy_book(bytes: &[u8], book: BookRecord, lists: &mut Lists) -> BookLengths
    requires { BookInside book (length bytes.now) }
    ensures held { BookHeld result }
    ensures lengths { result ≡ lengths_in book }
    ensures lists_after { lists.new ≡ with_book bytes.now book lists.old }
{
    load::take_bytes(bytes, book.map, &mut lists.map);
    load::take_bytes(bytes, book.configs, &mut lists.configs);
    load::take_list(bytes, book.symbols, &mut lists.symbols);
    load::take_list(bytes, book.ready, &mut lists.ready);
    BookLengths {
        clusters: book.clusters,
        map: book.map.count,
        configs: book.configs.count,
        symbols: book.symbols.count,
        ready: book.ready.count,
    }
}

// Copies a block's lists.
pub fn copy_block(bytes: &[u8], block: BlockRecord, lists: &mut Lists)
    requires { BlockInside block (length bytes.now) }
    ensures { lists.new ≡ with_block bytes.now block lists.old }
{
    load::take_list(bytes, block.levels, &mut lists.levels);
    load::take_list(bytes, block.scan, &mut lists.scan);
    load::take_list(bytes, block.source, &mut lists.source);
    load::take_list(bytes, block.inverse, &mut lists.inv_qm);
}

#[cfg(test)]
mod tests {
    use super::*;
    use std::test::Fail;

    // Some entries of a new value, first and last ones.
    #[test]
    fn new_is_all_zeros(rt: HostRuntime) -> Result<(), Fail> {
        let lists = Lists::new();
        assert_eq!(rt; lists.map[MAP - 1], 0);
        assert_eq!(rt; lists.work[0], 0);
        assert_eq!(rt; lists.work[LEVELS - 1], 0);
        assert!(rt;
            lists.row_b[ROW - 1] == 0.0,
            "the last float of the last row is not 0"
        );
        Ok(())
    }
}
