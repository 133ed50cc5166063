//! What no clause says of heads: their bytes, written out by hand, and full tables.
mod all_tables;
mod bad_heads;
mod full_tables;
mod old_heads;
