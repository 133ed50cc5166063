//! How many cells are looked at for a job.

#[derive(Clone, Copy)]
pub(crate) struct Looks {
    // At cells that fitted the job.
    pub(crate) fitting: usize,
    // At cells that did not.
    pub(crate) in_vain: usize,
}

impl Looks {
    pub(crate) const NONE: Looks = Looks {
        fitting: 0,
        in_vain: 0,
    };

    pub(crate) fn count_fitting(&mut self) {
        self.fitting = self.fitting.saturating_add(1);
    }

    pub(crate) fn count_in_vain(&mut self) {
        self.in_vain = self.in_vain.saturating_add(1);
    }
}
