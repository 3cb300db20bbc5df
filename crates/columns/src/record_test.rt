// What the passes over records ask of a test, so that they are written once for all tests.
ghost use Rattle.std.specs.Prelude.{◌≡◌, ◌≤◌, ℕ, Bool, List, length};
ghost use Rattle.query.specs.Shape.{max_columns};

pub trait RecordTest {
    // What it says of a record.
    ghost says: { Self → List ℕ → Bool };

    // Whether a record passes. Every test does it by arithmetic: nothing decides which way this goes, and it ends behind the last column whatever
    // it has met.
    fn lies(&self, rec: &[u32]) -> bool
        requires { length rec.now ≤ max_columns }
        ensures { result ≡ says self.now rec.now };
}
