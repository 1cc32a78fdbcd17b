//! How consoles end.

/// How a console ended that met no fault.
#[derive(Clone, Copy, Debug, PartialEq, Eq)]
pub enum ConsoleEnd {
    /// By the line `quit`.
    Quit,
    /// With its input: there is no further line.
    Input,
    /// By the line `shutdown`, which asks for the end of the server that serves it.
    Shutdown,
}
