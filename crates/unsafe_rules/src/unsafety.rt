//! The reasons for which a statement is unsafe to log by its text, as they are kept.
ghost use Rattle.std.specs.Prelude.{◌≡◌};
ghost use Rattle.unsafe_rules.specs.Unsafe.{is_nothing, reasons_in};

/// The reasons for which a statement is unsafe to log by its text: what is reached by it, by the functions that it calls, by the
/// triggers of the events that it causes, and by all that these reach.
#[derive(Clone, Copy)]
pub struct Reasons {
    /// UUID(), SYSDATE(), USER(), ROW_COUNT() or RAND().
    pub function: bool,
    /// @@server_id.
    pub variable: bool,
    /// A LIMIT.
    pub limit: bool,
    /// INSERT or REPLACE of a SELECT into a table with AUTO_INCREMENT.
    pub counted_select: bool,
    /// INSERT or REPLACE into a table with AUTO_INCREMENT, in a function or trigger.
    pub counted_program: bool,
    /// ON DUPLICATE KEY UPDATE on a table with a unique key beside the primary one.
    pub two_keys: bool,
    /// INSERT IGNORE of a SELECT.
    pub ignored_select: bool,
    /// REPLACE of a SELECT.
    pub replaced_select: bool,
    /// INSERT of a SELECT with ON DUPLICATE KEY UPDATE.
    pub updated_select: bool,
}

impl Reasons {
    /// Whether there is none, so that the text may be logged.
    pub fn is_empty(&self) -> bool
        ensures { result ≡ is_nothing (reasons_in self.now) }
    {
        !(self.function
            || self.variable
            || self.limit
            || self.counted_select
            || self.counted_program
            || self.two_keys
            || self.ignored_select
            || self.replaced_select
            || self.updated_select)
    }
}
