//! A script between two lines, and what one line of it does.

ghost use Rattle.std.specs.Prelude.{◌≡◌, ◌≢◌, ℕ, List, [], Option, None, Some, Ok, Err, Result, IfErr, IfOk, IfSome, IsSome, OnErr, OnOk};
ghost use Rattle.cfdp_actions.specs.Filestore.{Directory, File};
ghost use Rattle.cfdp_receiver.specs.StateMachine.{mib_fault};
ghost use Rattle.cfdp_texts.specs.Replies.{listing_text};
ghost use Rattle.cfdp_run.specs.Commands.{content_of, command_meaning};
ghost use Rattle.cfdp_run.specs.Contents.{get_line};
ghost use Rattle.cfdp_run.specs.Questions.{gaps_line, phase_line};
ghost use Rattle.cfdp_run.specs.Scripts.{Head as SaidInHead, asked, script_at_first, begun, cancelled_at, clock_set, expected, stage_filestore, heard_at, in_head, line_step, mib_of, command_obeyed, passed_at, play_of, progress_of, head_protected, put, put_file, with_config, with_mib, written};
ghost use Rattle.cfdp_run.specs.Stages.{head_of, play_from};
ghost use Rattle.cfdp_run.specs.code.Stages.{IsFit};
ghost use Rattle.cfdp_run.specs.Stops.{NoMemory, ScriptEnd as Why, stop_of};
ghost use Rattle.cfdp_run.specs.declared.run_commands.HeadProgress.TheVariants as progress;
ghost use Rattle.cfdp_run.specs.declared.words.FirstWord.TheVariants as word;
ghost use Rattle.cfdp_run_script.specs.Steps.{Leads, StopsScript, script_of};
ghost use Rattle.cfdp_run_script.specs.code.Steps.{held};

use crate::files::{Files, Unread};
use cfdp_entity::Entity;
use cfdp_paths::Path;
use cfdp_receiver::{Mib, Receiver};
use cfdp_run::{
    FileContent, FirstWord, Head, HeadProgress, Play, RunCommand, ScriptStop, Wrong, default_mib,
    read_run_command,
};
use cfdp_status::TransactionId;
use cfdp_transactions::Config;
use std::alloc::{AllocError, Global};

/// A script between two lines.
#[derive(Drop)]
pub struct RunScript {
    /// What the head says. It is not looked at after the head.
    head: Head,
    /// The receiving entity, after the head.
    play: Option<Play>,
}

/// The octets that a file is to have.
fn octets_of<F: Files>(
    alloc: Global,
    files: &mut F,
    content: FileContent<'_>,
) -> Result<Vec<u8>, ScriptStop>
    ensures ok { IfOk result (λ octets. IfSome (F.known files.old) (λ map. held map (content_of content.entry)
        ≡ Ok octets.items)) }
    ensures err { IfErr result (λ why. IfSome (F.known files.old) (λ map. stop_of why ≢ NoMemory →
        held map (content_of content.entry) ≡ Err (stop_of why))) }
    ensures same { F.known files.new ≡ F.known files.old }
{
    match content {
        FileContent::None => Ok(Vec::new(alloc)),
        FileContent::Octets(octets) => Ok(octets),
        FileContent::File(name) => match files.read(alloc, name) {
            Ok(octets) => Ok(octets),
            Err(Unread::Failed) => Err(ScriptStop::Unread(name.to_vec(alloc)?)),
            Err(Unread::Memory) => Err(ScriptStop::Memory),
        },
    }
}

impl RunScript {
    /// Before the first line.
    ///
    /// # Errors
    ///
    /// [`AllocError`] when out of memory. Cost: an entity of 64 blocks.
    #[tactic(auto, unfolding(crate::specs::Steps::script_stage))]
    pub fn new(alloc: Global) -> Result<RunScript, AllocError>
        ensures { IfOk result (λ script. script_of script ≡ script_at_first) }
    {
        let head = Head::new(alloc)?;
        Ok(RunScript { head, play: None })
    }

    /// The settings, for a line `mib`.
    #[tactic(auto, unfolding(crate::specs::Steps::script_stage))]
    fn mib(&self) -> Mib
        ensures value { result ≡ mib_of (script_of self.now) }
        ensures fits { mib_fault result ≡ None }
    {
        match &self.play {
            None => self.head.mib(),
            Some(_) => default_mib(),
        }
    }

    /// How far the head is.
    #[tactic(auto, unfolding(crate::specs::Steps::script_stage))]
    fn progress(&self) -> HeadProgress
        ensures { result ≡ progress_of (script_of self.now) }
    {
        match &self.play {
            None => self.head.progress(),
            Some(_) => HeadProgress::Playing,
        }
    }

    /// A line of the head is too late after it.
    #[tactic(auto, unfolding(crate::specs::Steps::script_stage))]
    fn in_head(&self, word: FirstWord) -> Result<(), ScriptStop>
        ensures ok { OnOk result (self.now.play ≡ None) }
        ensures late { IfErr result (λ stop. (change : SaidInHead → Result SaidInHead Why) →
            in_head word (script_of self.now) change ≡ Err (stop_of stop)) }
    {
        match &self.play {
            None => Ok(()),
            Some(_) => Err(ScriptStop::Wrong(Wrong::TooLate(word))),
        }
    }

    /// A line `mib`.
    #[tactic(auto, unfolding(crate::specs::Steps::script_stage))]
    fn set(&mut self, mib: Mib) -> Result<(), ScriptStop>
        requires { mib_fault mib ≡ None }
        ensures ok { OnOk result (in_head word.Mib (script_of self.old) (λ head. Ok (with_mib head mib))
            ≡ Ok (script_of self.new, [])) }
        ensures err { IfErr result (StopsScript (in_head word.Mib (script_of self.old)
            (λ head. Ok (with_mib head mib)))) }
    {
        self.in_head(FirstWord::Mib)?;
        self.head.set(mib);
        Ok(())
    }

    /// A line `config`.
    #[tactic(auto, unfolding(crate::specs::Steps::script_stage))]
    fn configure(&mut self, alloc: Global, config: Config) -> Result<(), ScriptStop>
        ensures ok { OnOk result (in_head word.Config (script_of self.old) (λ head. Ok (with_config head config))
            ≡ Ok (script_of self.new, [])) }
        ensures err { IfErr result (StopsScript (in_head word.Config (script_of self.old)
            (λ head. Ok (with_config head config)))) }
    {
        self.in_head(FirstWord::Config)?;
        Ok(self.head.configure(alloc, config)?)
    }

    /// A line `protect`.
    #[tactic(auto, unfolding(crate::specs::Steps::script_stage))]
    fn protect(&mut self, path: Path) -> Result<(), ScriptStop>
        ensures ok { OnOk result (in_head word.Protect (script_of self.old) (λ head. head_protected head path)
            ≡ Ok (script_of self.new, [])) }
        ensures err { IfErr result (StopsScript (in_head word.Protect (script_of self.old)
            (λ head. head_protected head path))) }
    {
        self.in_head(FirstWord::Protect)?;
        self.head.protect(path)
    }

    /// A line `put` of a directory.
    fn put_directory(&mut self, alloc: Global, path: &Path) -> Result<(), ScriptStop>
        ensures ok { OnOk result (in_head word.Put (script_of self.old) (λ head. put head path.now Directory)
            ≡ Ok (script_of self.new, [])) }
        ensures err { IfErr result (StopsScript (in_head word.Put (script_of self.old)
            (λ head. put head path.now Directory))) }
    {
        self.in_head(FirstWord::Put)?;
        self.head.check_path(alloc, path)?;
        self.head.put_directory(alloc, path)
    }

    /// A line `put` of a file. The file that it names is read where something can be put at the path.
    fn put_file<F: Files>(
        &mut self,
        alloc: Global,
        files: &mut F,
        path: &Path,
        content: FileContent<'_>,
    ) -> Result<(), ScriptStop>
        ensures ok { OnOk result (IfSome (F.known files.old) (λ map.
            in_head word.Put (script_of self.old) (λ head. put_file map head path.now (content_of content.entry))
            ≡ Ok (script_of self.new, []))) }
        ensures err { IfErr result (λ why. IfSome (F.known files.old) (λ map.
            StopsScript (in_head word.Put (script_of self.old) (λ head.
            put_file map head path.now (content_of content.entry))) why)) }
        ensures same { F.known files.new ≡ F.known files.old }
    {
        self.in_head(FirstWord::Put)?;
        self.head.check_path(alloc, path)?;
        let octets = octets_of(alloc, files, content)?;
        self.head.put_file(alloc, path, &octets)
    }

    /// The receiving entity begins here. Not inlined: the room of its locals is large, and the lines after the head are
    /// not to pay for it.
    #[cold]
    #[inline(never)]
    fn create_play(&mut self, alloc: Global) -> Result<(), AllocError>
        requires { self.old.play ≡ None }
        ensures playing { OnOk result (IsSome self.new.play) }
        ensures state { OnOk result (IfSome self.new.play (λ play. play_from play ≡ begun (head_of self.old.head))) }
    {
        self.play = Some(self.head.play(alloc)?);
        Ok(())
    }

    /// The head is over. Costs nothing after the first line of another kind.
    #[tactic(auto, unfolding(crate::specs::Steps::script_stage))]
    fn begin(&mut self, alloc: Global) -> Result<(), AllocError>
        ensures playing { OnOk result (IsSome self.new.play) }
        ensures state { OnOk result (IfSome self.new.play (λ play. play_from play ≡ play_of (script_of self.old))) }
    {
        match &self.play {
            None => self.create_play(alloc),
            Some(_) => Ok(()),
        }
    }

    /// Octets come.
    fn receive(
        &mut self,
        alloc: Global,
        now: u64,
        octets: &mut [u8],
        text: &mut Vec<u8>,
    ) -> Result<(), ScriptStop>
        ensures ok { OnOk result (Leads (written (heard_at (play_of (script_of self.old)) now octets.old))
            (script_of self.new) text.old.items text.new.items) }
        ensures err { IfErr result (StopsScript (written (heard_at (play_of (script_of self.old)) now octets.old))) }
        ensures kept { OnErr result (text.new.items ≡ text.old.items) }
    {
        self.begin(alloc)?;
        let Some(play) = &mut self.play else {
            unreachable!()
        };
        play.receive(alloc, now, octets)?;
        Ok(text.extend_from_slice(play.lines())?)
    }

    /// The user cancels a transaction.
    fn cancel(
        &mut self,
        alloc: Global,
        now: u64,
        id: TransactionId,
        text: &mut Vec<u8>,
    ) -> Result<(), ScriptStop>
        ensures ok { OnOk result (Leads (written (cancelled_at (play_of (script_of self.old)) now id))
            (script_of self.new) text.old.items text.new.items) }
        ensures err { IfErr result (StopsScript (written (cancelled_at (play_of (script_of self.old)) now id))) }
        ensures kept { OnErr result (text.new.items ≡ text.old.items) }
    {
        self.begin(alloc)?;
        let Some(play) = &mut self.play else {
            unreachable!()
        };
        play.cancel(alloc, now, id)?;
        Ok(text.extend_from_slice(play.lines())?)
    }

    /// Time passes.
    fn pass(&mut self, alloc: Global, now: u64, text: &mut Vec<u8>) -> Result<(), ScriptStop>
        ensures ok { OnOk result (Leads (written (passed_at (play_of (script_of self.old)) now))
            (script_of self.new) text.old.items text.new.items) }
        ensures err { IfErr result (StopsScript (written (passed_at (play_of (script_of self.old)) now))) }
        ensures kept { OnErr result (text.new.items ≡ text.old.items) }
    {
        self.begin(alloc)?;
        let Some(play) = &mut self.play else {
            unreachable!()
        };
        play.pass(alloc, now)?;
        Ok(text.extend_from_slice(play.lines())?)
    }

    /// The driver's clock was set.
    fn set_clock(&mut self, alloc: Global, now: u64, text: &mut Vec<u8>) -> Result<(), ScriptStop>
        ensures ok { OnOk result (Leads (written (clock_set (play_of (script_of self.old)) now))
            (script_of self.new) text.old.items text.new.items) }
        ensures err { IfErr result (StopsScript (written (clock_set (play_of (script_of self.old)) now))) }
        ensures kept { OnErr result (text.new.items ≡ text.old.items) }
    {
        self.begin(alloc)?;
        let Some(play) = &mut self.play else {
            unreachable!()
        };
        play.set_clock(alloc, now)?;
        Ok(text.extend_from_slice(play.lines())?)
    }

    /// What there is at a path is asked for.
    fn get(&mut self, alloc: Global, path: &Path, text: &mut Vec<u8>) -> Result<(), ScriptStop>
        ensures ok { OnOk result (Leads (written (asked (play_of (script_of self.old))
            (get_line (play_of (script_of self.old)).state.world.filestore path.now)))
            (script_of self.new) text.old.items text.new.items) }
        ensures err { IfErr result (StopsScript (written (asked (play_of (script_of self.old))
            (get_line (play_of (script_of self.old)).state.world.filestore path.now)))) }
        ensures kept { OnErr result (text.new.items ≡ text.old.items) }
    {
        self.begin(alloc)?;
        let Some(play) = &mut self.play else {
            unreachable!()
        };
        play.get(alloc, path)?;
        Ok(text.extend_from_slice(play.lines())?)
    }

    /// What is missing of a transaction is asked for.
    fn gaps(
        &mut self,
        alloc: Global,
        id: TransactionId,
        text: &mut Vec<u8>,
    ) -> Result<(), ScriptStop>
        ensures ok { OnOk result (Leads (written (asked (play_of (script_of self.old))
            (gaps_line (play_of (script_of self.old)).state id))) (script_of self.new) text.old.items text.new.items) }
        ensures err { IfErr result (StopsScript (written (asked (play_of (script_of self.old))
            (gaps_line (play_of (script_of self.old)).state id)))) }
        ensures kept { OnErr result (text.new.items ≡ text.old.items) }
    {
        self.begin(alloc)?;
        let Some(play) = &mut self.play else {
            unreachable!()
        };
        play.gaps(id)?;
        Ok(text.extend_from_slice(play.lines())?)
    }

    /// How far a transaction is, is asked for.
    fn phase(
        &mut self,
        alloc: Global,
        id: TransactionId,
        text: &mut Vec<u8>,
    ) -> Result<(), ScriptStop>
        ensures ok { OnOk result (Leads (written (asked (play_of (script_of self.old))
            (phase_line (play_of (script_of self.old)).state id))) (script_of self.new) text.old.items text.new.items) }
        ensures err { IfErr result (StopsScript (written (asked (play_of (script_of self.old))
            (phase_line (play_of (script_of self.old)).state id)))) }
        ensures kept { OnErr result (text.new.items ≡ text.old.items) }
    {
        self.begin(alloc)?;
        let Some(play) = &mut self.play else {
            unreachable!()
        };
        play.phase(id)?;
        Ok(text.extend_from_slice(play.lines())?)
    }

    /// All of the filestore is asked for.
    fn list(&mut self, alloc: Global, text: &mut Vec<u8>) -> Result<(), ScriptStop>
        ensures ok { OnOk result (Leads (written (asked (play_of (script_of self.old))
            (listing_text (play_of (script_of self.old)).state.world)))
            (script_of self.new) text.old.items text.new.items) }
        ensures err { IfErr result (StopsScript (written (asked (play_of (script_of self.old))
            (listing_text (play_of (script_of self.old)).state.world)))) }
        ensures kept { OnErr result (text.new.items ≡ text.old.items) }
    {
        self.begin(alloc)?;
        let Some(play) = &mut self.play else {
            unreachable!()
        };
        play.list(alloc)?;
        Ok(text.extend_from_slice(play.lines())?)
    }

    /// A line is expected.
    #[tactic(auto, unfolding(crate::specs::Steps::script_stage))]
    fn expect(&mut self, alloc: Global, line: Vec<u8>) -> Result<(), ScriptStop>
        ensures ok { OnOk result (expected (play_of (script_of self.old)) line.items ≡ Ok (script_of self.new, [])) }
        ensures err { IfErr result (StopsScript (expected (play_of (script_of self.old)) line.items)) }
    {
        self.begin(alloc)?;
        let Some(play) = &self.play else {
            unreachable!()
        };
        if play.has_written(&line) {
            Ok(())
        } else {
            Err(ScriptStop::Unmet(line))
        }
    }

    /// Does what a line says.
    fn obey<F: Files>(
        &mut self,
        alloc: Global,
        files: &mut F,
        command: RunCommand<'_>,
        text: &mut Vec<u8>,
    ) -> Result<(), ScriptStop>
        requires { IsFit (command_meaning command) }
        ensures ok { OnOk result (IfSome (F.known files.old) (λ map.
            Leads (command_obeyed map (script_of self.old) (command_meaning command.entry))
            (script_of self.new) text.old.items text.new.items)) }
        ensures err { IfErr result (λ why. IfSome (F.known files.old)
            (λ map. StopsScript (command_obeyed map (script_of self.old) (command_meaning command.entry)) why)) }
        ensures kept { OnErr result (text.new.items ≡ text.old.items) }
        ensures same { F.known files.new ≡ F.known files.old }
    {
        match command {
            RunCommand::Settings(mib) => self.set(mib),
            RunCommand::Configure(config) => self.configure(alloc, config),
            RunCommand::Protect(path) => self.protect(path),
            RunCommand::PutDirectory(path) => self.put_directory(alloc, &path),
            RunCommand::PutFile(path, content) => self.put_file(alloc, files, &path, content),
            RunCommand::Receive { now, octets } => {
                let mut octets = octets;
                self.receive(alloc, now, &mut octets, text)
            }
            RunCommand::Cancel { now, id } => self.cancel(alloc, now, id, text),
            RunCommand::Pass { now } => self.pass(alloc, now, text),
            RunCommand::SetClock { now } => self.set_clock(alloc, now, text),
            RunCommand::Get(path) => self.get(alloc, &path, text),
            RunCommand::Gaps(id) => self.gaps(alloc, id, text),
            RunCommand::Phase(id) => self.phase(alloc, id, text),
            RunCommand::List => self.list(alloc, text),
            RunCommand::Expect(line) => self.expect(alloc, line),
            RunCommand::End => Err(ScriptStop::Ended),
        }
    }

    /// Carries out a line, without its newline, and appends what it writes.
    ///
    /// # Errors
    ///
    /// Why the script stops here: what the definitions say, or [`ScriptStop::Memory`] when out of memory. The text is
    /// as before.
    ///
    /// Cost: that of its input; the first line after the head also that of a receiving entity, and three passes over
    /// what was put.
    pub fn line<F: Files>(
        &mut self,
        alloc: Global,
        files: &mut F,
        line: &[u8],
        text: &mut Vec<u8>,
    ) -> Result<(), ScriptStop>
        ensures ok { OnOk result (IfSome (F.known files.old) (λ map.
            Leads (line_step map (script_of self.old) line.now) (script_of self.new) text.old.items text.new.items)) }
        ensures err { IfErr result (λ why. IfSome (F.known files.old)
            (λ map. StopsScript (line_step map (script_of self.old) line.now) why)) }
        ensures kept { OnErr result (text.new.items ≡ text.old.items) }
        ensures same { F.known files.new ≡ F.known files.old }
    {
        match read_run_command(alloc, line, self.mib(), self.progress()) {
            Ok(None) => Ok(()),
            Ok(Some(command)) => self.obey(alloc, files, command, text),
            Err(fault) => Err(ScriptStop::from(fault)),
        }
    }

    /// The entity, for its filestore. Costs nothing.
    #[tactic(auto, unfolding(crate::specs::Steps::script_stage))]
    pub fn entity(&self) -> &Entity
        ensures { result.now.filestore ≡ stage_filestore (script_of self.now) }
    {
        match &self.play {
            None => self.head.entity(),
            Some(play) => play.entity(),
        }
    }

    /// The receiving entity, after the head. Costs nothing.
    #[tactic(auto, unfolding(crate::specs::Steps::script_stage))]
    pub fn receiver(&self) -> Option<&Receiver>
        ensures some { IfSome result (λ receiver. receiver.now.state ≡ (play_of (script_of self.now)).state) }
        ensures none { result ≡ None → progress_of (script_of self.now) ≢ progress.Playing }
    {
        match &self.play {
            None => None,
            Some(play) => Some(play.receiver()),
        }
    }
}
