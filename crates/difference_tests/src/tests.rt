mod lives;
mod many;
