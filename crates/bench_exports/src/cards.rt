// A whole card.
use runner::run_card;
use std::alloc::Global;

// The bytes that a card prints, as far as there is room, and how many there are; 0 where there was no memory, since C has no `Result`.
#[unsafe(no_mangle)]
pub extern "C" fn valetwren_run_card(heap: Global, card: &[u8], out: &mut [u8]) -> usize {
    match run_card(heap, card) {
        Ok(answers) => {
            let n = answers.len().min(out.len());
            out[..n].copy_from_slice(&answers.as_slice()[..n]);
            n
        }
        Err(_) => 0,
    }
}
