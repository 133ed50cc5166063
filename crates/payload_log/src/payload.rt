//! What a log is of.
ghost use Rattle.std.specs.Prelude.{◌≡◌, ℕ, ◌≤◌, List, take};

/// A value that stands in a frame of a journal as bytes, 1 to 512 of them.
pub trait Payload: Copy {
    /// Its bytes.
    ghost spelling: { Self → List ℕ };

    /// Writes the bytes at the front, and gives how many they are. It takes no memory.
    fn put(&self, out: &mut [u8; 512]) -> usize
        ensures bytes { take result out.new ≡ spelling self.now }
        ensures size { (1 ≤ result) × (result ≤ 512) };
}
