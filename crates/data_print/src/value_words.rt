//! Lists of values in lines.

ghost use Rattle.std.specs.Prelude.{◌≡◌, ◌<◌, ◌++◌, length, map, OnOk};
ghost use Rattle.cyclotomic.specs.CyclotomicRing.{cyclotomic_value};
ghost use Rattle.qd_ring.specs.RowLists.{row_at};
ghost use Rattle.data_print.specs.Values.{value_word, value_words};

use crate::Memory;
use qd_ring::{Cyc, Rows, append_plain};

/// Adds a value after a space.
#[tactic(auto, using(std::proofs::Common::append_assoc, crate::proofs::ValueTexts::text_of))]
pub fn append_value<const K: u32>(text: &mut Vec<u8>, value: &Cyc<K>) -> Result<(), Memory>
    ensures added { OnOk result (text.new.items ≡ text.old.items
        ++ value_word (cyclotomic_value K value.now.coefficients)) }
{
    text.push(b' ')?;
    append_plain(text, &value.to_plain())
}

/// Adds all values of row `i`, each after a space.
pub fn append_row<const K: u32>(text: &mut Vec<u8>, rows: &Rows<K>, i: u32) -> Result<(), Memory>
    requires i_below { i < length rows.now }
    ensures added { OnOk result (text.new.items ≡ text.old.items ++ value_words
        (map (λ coefficients. cyclotomic_value K coefficients) (row_at rows.now i))) }
{
    for j in 0..rows.width(i) {
        append_value(text, &rows.value(i, j))?;
    }
    Ok(())
}
