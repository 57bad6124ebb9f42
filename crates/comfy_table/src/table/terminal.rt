//! Facts about the terminal that a table is printed on, and their effects on the drawing.

ghost use Rattle.std.specs.Prelude.{◌≡◌, true};
ghost use Rattle.comfy_table.specs.TableValue.{is_tty, should_style, table_width};

use crate::table::Table;

/// Facts about a terminal, as the caller found them. `Table::set_terminal` gives them to a table.
/// If `Table::is_tty` is then true, the table writes colours and attributes. If it also has no
/// width of its own, it takes the terminal's width.
///
/// A program finds these facts as follows, if the shell exports the width in `COLUMNS`. Interactive
/// shells don't export it: a line like `alias program='COLUMNS=$COLUMNS program'` in the shell's
/// start file does.
///
/// ```
/// use std::env;
/// use std::io::IsTerminal;
///
/// table.set_terminal(Terminal {
///     stdout_is_tty: rt.stdout().is_terminal(),
///     stderr_is_tty: rt.stderr().is_terminal(),
///     width: env::var(&rt, "COLUMNS")
///         .ok()
///         .and_then(|columns| columns.parse().ok()),
/// });
/// ```
#[derive(Copy, Clone, Debug)]
pub struct Terminal {
    /// True if standard output is a terminal.
    pub stdout_is_tty: bool,
    /// True if standard error is a terminal.
    pub stderr_is_tty: bool,
    /// The width of the terminal in terminal columns; `None` if it isn't known.
    pub width: Option<u16>,
}

impl Terminal {
    /// Facts about a terminal of which nothing is known: neither standard output nor standard error
    /// counts as a terminal, and there is no width.
    pub const UNKNOWN: Terminal = Terminal {
        stdout_is_tty: false,
        stderr_is_tty: false,
        width: None,
    };
}

impl Table {
    /// Sets the facts about the terminal. A new table has `Terminal::UNKNOWN`. No function of a
    /// table queries the terminal itself, so the caller has to find the facts, as in the example of
    /// `Terminal`.
    pub fn set_terminal(&mut self, terminal: Terminal) -> &mut Self
        ensures same_reference { result.ghost_name ≡ self.entry.ghost_name }
        ensures value { result.now ≡ record self.old { terminal = terminal } }
    {
        self.terminal = terminal;
        self
    }

    /// Makes `is_tty` return false, whatever facts `set_terminal` sets. The terminal's width isn't
    /// used. Colours and attributes are written only after `enforce_styling`.
    pub fn force_no_tty(&mut self) -> &mut Self
        ensures same_reference { result.ghost_name ≡ self.entry.ghost_name }
        ensures value { result.now ≡ record self.old { no_tty = true } }
    {
        self.no_tty = true;
        self
    }

    /// Makes `is_tty` return the fact `stderr_is_tty` of `set_terminal`. Without this call `is_tty`
    /// returns the fact `stdout_is_tty`. Call this function if you print the drawing to standard
    /// error: the table itself prints nothing.
    pub fn use_stderr(&mut self) -> &mut Self
        ensures same_reference { result.ghost_name ≡ self.entry.ghost_name }
        ensures value { result.now ≡ record self.old { use_stderr = true } }
    {
        self.use_stderr = true;
        self
    }

    /// Makes the table write colours and attributes even if `is_tty` is false. It is false, for
    /// example, if the output is a file or the input of another program.
    pub fn enforce_styling(&mut self) -> &mut Self
        ensures same_reference { result.ghost_name ≡ self.entry.ghost_name }
        ensures value { result.now ≡ record self.old { enforce_styling = true } }
    {
        self.enforce_styling = true;
        self
    }

    /// Makes the table write colours and attributes only around the texts of cells, and not around
    /// paddings and the spaces beside the texts.
    pub fn style_text_only(&mut self)
        ensures { self.new ≡ record self.old { style_text_only = true } }
    {
        self.style_text_only = true;
    }

    /// The width of the table in terminal columns: the width that `set_width` has set, or else the
    /// terminal's width (`Terminal::width`) if `is_tty` is true. Otherwise `None`.
    pub fn width(&self) -> Option<u16>
        ensures { result ≡ table_width self.now }
    {
        if self.set_width.is_some() {
            return self.set_width;
        }
        if self.is_tty() {
            self.terminal.width
        } else {
            None
        }
    }

    /// Returns true if standard output, or standard error after `use_stderr`, is a terminal by the
    /// facts of `set_terminal`. After `force_no_tty` the result is always false. The result follows
    /// later changes of the facts.
    pub fn is_tty(&self) -> bool
        ensures { result ≡ is_tty self.now }
    {
        if self.no_tty {
            return false;
        }
        if self.use_stderr {
            self.terminal.stderr_is_tty
        } else {
            self.terminal.stdout_is_tty
        }
    }

    /// Returns true if colours and attributes are written: after `enforce_styling`, or if `is_tty`
    /// is true.
    pub fn should_style(&self) -> bool
        ensures { result ≡ should_style self.now }
    {
        self.enforce_styling || self.is_tty()
    }
}
