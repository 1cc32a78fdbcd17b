//! What a console tells of its own lines.
ghost use Rattle.std.specs.Prelude.{◌≡◌};
ghost use Rattle.console.specs.Help.{help_line as any_line};

/// The line that has the word of each line that a console of a server that stays understands.
pub(crate) fn help_line() -> &'static str
    ensures { result.now ≡ any_line }
{
    "help spawn spawn_link exit register re_register unregister whereis names describe find wait notices set_lock del_lock join leave quit status fence help shutdown\n"
}
