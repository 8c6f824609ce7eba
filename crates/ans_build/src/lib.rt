// Symbol prices from the frequencies of an ANS code (ticket 2).
#![tactic(auto)]

ghost use Rattle.std.specs.Prelude.{◌≡◌, ◌≤◌, true, length};
ghost use Rattle.refusals.specs.Numbers.{code_of};
ghost use Rattle.book_build.specs.Paint.{paint};
ghost use Rattle.ans_prices.specs.Table.{PriceTable};
ghost use Rattle.ans_build.specs.Ans.{all_whole, ans_entry, ans_refusal, ans_symbols};

use refusals::Refusal;

// Whether all frequencies are at most 4,096. With no way out of it the loop takes many at a time.
fn all_whole(freqs: &[u16]) -> bool
    requires { length freqs.now ≤ 32768 }
    ensures { result ≡ all_whole freqs.now }
{
    let mut bad: usize = 0;
    for &frequency in freqs {
        bad += usize::from(frequency > 4096);
    }
    bad == 0
}

fn write_prices(table: &[u32; 4097], freqs: &[u16], symbols: &mut [f32])
    requires price_table { PriceTable table.now }
    requires freqs_value { all_whole freqs.now ≡ true }
    requires symbols_len { length symbols.old ≡ length freqs.now }
    ensures { symbols.new ≡ paint (ans_entry freqs.now) 0 (length freqs.now) symbols.old }
{
    for (i, &frequency) in freqs.iter().enumerate() {
        symbols[i] = f32::from_bits(table[usize::from(frequency)]);
    }
}

// Writes every symbol price of an ANS code; or nothing, where check 1, 2 or 19 fails. Frequencies need not add up to 4,096.
#[tactic(auto, unfolding(crate::specs::Ans::ans_refusal, crate::specs::Ans::ans_symbols))]
pub fn ans_symbol_bits(clusters: u32, freqs: &[u16], symbols: &mut [f32]) -> Result<(), Refusal>
    ensures value { code_of result ≡ ans_refusal clusters freqs.now symbols.old }
    ensures symbols_after { symbols.new ≡ ans_symbols clusters freqs.now symbols.old }
{
    if clusters == 0 || clusters > 256 {
        return Err(Refusal::MapLength);
    }
    let n = clusters as usize;
    if freqs.len() != 128 * n || symbols.len() != 128 * n {
        return Err(Refusal::BookLength);
    }
    if !all_whole(freqs) {
        return Err(Refusal::Frequency);
    }
    write_prices(&ans::table::price_table(), freqs, symbols);
    Ok(())
}
