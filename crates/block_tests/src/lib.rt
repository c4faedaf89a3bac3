//! Tests of blocks, of layouts and of the rows of chunks, with bytes and numbers that were worked out by hand.
#![tactic(auto)]

#[cfg(test)]
mod block_moves;
#[cfg(test)]
mod chunk_rows;
#[cfg(test)]
mod layout_rows;
#[cfg(test)]
mod layout_texts;
#[cfg(test)]
mod random_rows;
#[cfg(test)]
mod row_lines;
