//! Auctions: worked ones, and many that look like chance, by the code and by its scan.
mod checks;
mod making;
mod places;
mod rows;
mod sides;
