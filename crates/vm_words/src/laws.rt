//! What holds of the readings of words: each function states one law and does nothing.
ghost use Rattle.std.specs.Prelude.{◌≡◌, List, true};
ghost use Rattle.clap.specs.Words.{Text, takes};
ghost use Rattle.vm_words.specs.Apps.{vmcache_app};
ghost use Rattle.vm_words.specs.Commands.{HasLine, IsCommand, IsCommandLine, IsNoCommand, WhyRefused, line_of};
ghost use Rattle.vm_words.specs.Values.{Meaning};
ghost use Rattle.vm_words.specs.declared.Command.{Command};
ghost use Rattle.vm_words.specs.declared.form.FormVerb.{FormVerb};

/// Words that clap takes are a line of one of the commands, with all the words that it asks for.
pub fn taken_words_are_whole()
    ensures { (words : List Text) → takes vmcache_app words ≡ true → HasLine words }
{}

/// Words are a line of one command at most, and say one thing for each of its slots. So they are one command with one value
/// for each of its fields.
pub fn one_line()
    ensures verb { (words : List Text) (verb other : FormVerb) (meanings others : List Meaning)
        → IsCommandLine words verb meanings → IsCommandLine words other others → verb ≡ other }
    ensures meanings { (words : List Text) (verb other : FormVerb) (meanings others : List Meaning)
        → IsCommandLine words verb meanings → IsCommandLine words other others → meanings ≡ others }
    ensures command { (words : List Text) (command other : Command) → IsCommand words command
        → IsCommand words other → line_of command ≡ line_of other }
{}

/// Words that are refused are no command, whatever its values.
pub fn refused_is_none()
    ensures { (words : List Text) → WhyRefused words → IsNoCommand words }
{}
