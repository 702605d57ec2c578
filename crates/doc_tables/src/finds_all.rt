ghost use Rattle.doc_tables.specs.FindsAll.{FindsAll};

use crate::tables::Tables;

impl Tables {
    /// Nothing to do: each object, and each slot of an object, is found by its name.
    pub fn finds_all(&self)
        ensures { FindsAll self.now.document }
    {
        let _ = &self.objects; // for the proof
    }
}
