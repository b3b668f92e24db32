//! What the rows of all reports have in common: a row has a line.

ghost use Rattle.std.specs.Prelude.{◌≡◌, ℕ, ◌+◌, ◌<◌, List, length};
ghost use Rattle.std.specs.List.{between, flat_map};
ghost use Rattle.report_lines.specs.Texts.{Adds};
ghost use Rattle.report_request.specs.Plain.{Layout};

use bgp_update::Unicast;
use report_lines::Text;
use report_request::LayoutOf;

/// The content of one line of a report on routes of a family.
pub trait Line<F: Unicast> {
    /// The line, including its end, by the layout.
    ghost line: { Layout → Self → List ℕ };

    /// Prefetches what the row refers to, if it lies elsewhere in memory, by reading a little of it, and returns
    /// about how many bytes that is.
    fn prefetch(&self) -> usize {
        0
    }

    /// Adds the line.
    fn put<T: Text>(&self, text: &mut T, layout: &LayoutOf<F>)
        ensures { Adds (T.state text.old) (T.state text.new) (line layout.now self.now) };
}

/// Rows of a report, in order, which are reached by their numbers.
pub trait RowList<F: Unicast>: Copy {
    ghost Row: { Type 0 };

    ghost rows: { Self → List Row };

    /// The line of a row, including its end, by the layout.
    ghost line_of: { Layout → Row → List ℕ };

    /// The number of rows.
    fn len(self) -> usize
        ensures { result ≡ length (rows self) };

    /// Prefetches what a row refers to, as `Line::prefetch`.
    fn prefetch(self, at: usize) -> usize
        requires { at < length (rows self) };

    /// Adds the line of a row.
    fn put<T: Text>(self, at: usize, text: &mut T, layout: &LayoutOf<F>)
        requires { at < length (rows self) }
        ensures { Adds (T.state text.old) (T.state text.new)
            (flat_map (line_of layout.now) (between at (at + 1) (rows self))) };
}

impl<F: Unicast, R: Line<F>> RowList<F> for &[R] {
    ghost Row = { R };

    ghost rows = { λ rows. rows.now };

    ghost line_of = { R.line };

    fn len(self) -> usize {
        <[R]>::len(self)
    }

    fn prefetch(self, at: usize) -> usize {
        self[at].prefetch()
    }

    #[tactic(auto, using(report_lines::proofs::JoinLaws::Adds_one))]
    fn put<T: Text>(self, at: usize, text: &mut T, layout: &LayoutOf<F>) {
        self[at].put(text, layout);
    }
}
