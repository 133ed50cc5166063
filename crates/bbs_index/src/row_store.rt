//! The step's view of an index. No call but `reserve` takes memory.
use crate::Index;
use crate::wanted::instances_of;
use bbs_model::{Counts, DomainRow, RowStore};
use cell_records::CellRow;
use diego_names::{Key, Name, OutOfMemory};
use lrp_records::{Actual, Desired, Presence};
use task_records::Task;

impl RowStore for Index {
    ghost state = { λ i. i.rows };

    ghost spare = { λ i. i.spare };

    fn desired(&self, process: &Name) -> Option<Desired> {
        self.desired.get(process)
    }

    fn actual(&self, key: &Key, presence: Presence) -> Option<Actual> {
        self.actual.get(&(*key, presence))
    }

    fn task(&self, name: &Name) -> Option<Task> {
        self.tasks.get(name)
    }

    fn cell(&self, cell: &Name) -> Option<CellRow> {
        self.cells.get(cell)
    }

    fn domain(&self, domain: &Name) -> Option<DomainRow> {
        self.domains.get(domain)
    }

    fn counts(&self) -> Counts {
        Counts {
            desired: self.desired.len() as u32,
            wanted: self.wanted,
            actual: self.actual.len() as u32,
            tasks: self.tasks.len() as u32,
            cells: self.cells.len() as u32,
            domains: self.domains.len() as u32,
        }
    }

    fn next(&self) -> u64 {
        self.next
    }

    fn advance(&mut self) {
        self.next += 1;
    }

    fn put_desired(&mut self, row: Desired) {
        let old = instances_of(self.desired.get(&row.process));
        self.desired.put(row);
        self.wanted = self.wanted - old + row.instances;
    }

    fn put_actual(&mut self, row: Actual) {
        self.actual.put(row);
    }

    fn put_task(&mut self, row: Task) {
        self.tasks.put(row);
    }

    fn put_cell(&mut self, row: CellRow) {
        self.cells.put(row);
    }

    fn put_domain(&mut self, row: DomainRow) {
        self.domains.put(row);
    }

    fn remove_desired(&mut self, process: &Name) {
        let old = instances_of(self.desired.get(process));
        self.desired.remove(process);
        self.wanted -= old;
    }

    fn remove_actual(&mut self, key: &Key, presence: Presence) {
        self.actual.remove(&(*key, presence));
    }

    fn remove_task(&mut self, name: &Name) {
        self.tasks.remove(name);
    }

    fn remove_cell(&mut self, cell: &Name) {
        self.cells.remove(cell);
    }

    fn remove_domain(&mut self, domain: &Name) {
        self.domains.remove(domain);
    }

    fn reserve(&mut self, n: u32) -> Result<(), OutOfMemory> {
        let n = n as usize;
        self.desired.reserve(n)?;
        self.actual.reserve(n)?;
        self.tasks.reserve(n)?;
        self.cells.reserve(n)?;
        self.domains.reserve(n)?;
        Ok(())
    }
}
