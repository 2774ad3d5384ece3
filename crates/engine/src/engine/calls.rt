// The calls on an engine. Each is one step of the model, refused or accepted.
ghost use Rattle.reader.specs.Books.{said};
ghost use Rattle.engine.specs.Models.{ask_apart, ask_figure, ask_level, ask_no_slip, ask_sight, ask_slip, carry as carry_call, clock as clock_call, fresh, level_of, load as load_call, open_slip, or_else, put as put_call, run as run_call, show as show_call, tally as tally_call, unless, withdraw as withdraw_call};
ghost use Rattle.engine.specs.Promises.{Promise};
ghost use Rattle.engine.specs.Seen.{Back, book_of, clock_answer, Ended, engine_of, IsStep, load_answer, open_answer, out_of, paper_of, plain_answer, show_answer, slip_answer, tally_answer, Voided};
ghost use Rattle.engine.specs.Worked.{WorkedExamples};
ghost use Rattle.refusal.specs.declared.engine.EngineFault.TheVariants.{NoBook, NotTheSlip};
ghost use Rattle.std.specs.Prelude.{◌≡◌, IfOk, MatchResult, None, Some};
ghost use Rattle.std.specs.Result.{result_err};

use crate::engine::Engine;
use crate::slip::{Numbers, Refused, Slip, Tally};
use flowcheck::checker::check;
use machine::program::Program;
use meter::meter::Meter;
use reader::rulebook::Book;
use refusal::engine::EngineFault;
use scale::scale::Scale;
use steps::state::State;

// Refuses with this fault unless a test passed.
fn refuse_unless(passed: bool, fault: EngineFault) -> Result<(), EngineFault>
    ensures { result_err result ≡ unless passed fault }
{
    if passed { Ok(()) } else { Err(fault) }
}

// The level of a figure, if the book has it.
fn figure_level(book: &Book, figure: u32) -> Result<u16, EngineFault>
    ensures asked { result_err result ≡ ask_figure (said book.now) figure }
    ensures level { IfOk result (λ level. level ≡ level_of (said book.now) figure) }
{
    book.levels()
        .get(figure as usize)
        .copied()
        .ok_or(EngineFault::NoSuch(figure))
}

impl<S: Scale, M: Meter> Engine<S, M> {
    // An engine with no book and no slip, clock and counts at 0. Each call on it is one step of the
    // model, and of every list of calls it promises: whoever sees a level and below cannot tell it
    // from another whose list differs in private puts alone, and slips add up.
    #[tactic(auto, using(crate::proofs::Promised::promise, crate::proofs::Worked::worked_examples))]
    pub fn new(scale: S, meter: M) -> Self
        ensures made { engine_of result ≡ fresh }
        ensures parts { (result.scale ≡ scale) × (result.meter ≡ meter) }
        ensures promise { Promise (S.Scale.meaning scale) (M.Meter.meaning meter) }
        ensures worked { WorkedExamples }
    {
        scale.laws();
        meter.laws();
        Engine {
            scale,
            meter,
            program: None,
            state: State::empty(),
            out: None,
            tally: Tally {
                openings: 0,
                carries: 0,
                withdrawals: 0,
            },
        }
    }

    // The loaded book.
    fn book(&self) -> Result<&Book, EngineFault>
        ensures { MatchResult result (λ book. book_of self.now.program ≡ Some (said book.now)) (λ fault. (book_of self.now.program ≡ None) × (fault ≡ NoBook)) }
    {
        let program = self.program.as_ref().ok_or(EngineFault::NoBook)?;
        Ok(program.book())
    }

    // Refuses a level that the scale does not know.
    fn ask_level(&self, level: u16) -> Result<(), EngineFault>
        ensures { result_err result ≡ ask_level (S.Scale.meaning self.now.scale) level }
    {
        refuse_unless(self.scale.known(level), EngineFault::UnknownLevel(level))
    }

    // Refuses, with this fault, what a level that is not at or below another one hides.
    fn ask_below(&self, low: u16, high: u16, hidden: EngineFault) -> Result<(), EngineFault>
        ensures { result_err result ≡ unless ((S.Scale.meaning self.now.scale).below low high) hidden }
    {
        refuse_unless(self.scale.at_or_below(low, high), hidden)
    }

    // Refuses while a slip is out.
    fn ask_no_slip(&self) -> Result<(), EngineFault>
        ensures { result_err result ≡ ask_no_slip (out_of self.now.out) }
    {
        refuse_unless(self.out.is_none(), EngineFault::SlipOut)
    }

    // Loads a book: its figures get their start amounts and the clock starts at 0. Answers how many
    // events there are.
    pub fn load(&mut self, bytes: &[u8]) -> Result<u32, EngineFault>
        ensures { IsStep S.Scale.meaning M.Meter.meaning self.old self.new (load_call bytes.now) (load_answer result) }
    {
        self.ask_no_slip()?; // A slip speaks of the figures of the loaded book.
        let book = check(&self.scale, &self.meter, bytes)?;
        let count = book.events();
        self.state = State::new(&book);
        self.program = Some(Program::new(book));
        Ok(count)
    }

    // Puts an amount into a figure, without ticks. No amount is refused.
    pub fn put(&mut self, figure: u32, amount: i32) -> Result<(), EngineFault>
        ensures { IsStep S.Scale.meaning M.Meter.meaning self.old self.new (put_call figure amount) (plain_answer result) }
    {
        figure_level(self.book()?, figure)?;
        self.state.set_amount(figure as usize, amount);
        Ok(())
    }

    // Runs an event.
    pub fn run(&mut self, event: u32) -> Result<(), EngineFault>
        ensures { IsStep S.Scale.meaning M.Meter.meaning self.old self.new (run_call event) (plain_answer result) }
    {
        let program = self.program.as_ref().ok_or(EngineFault::NoBook)?;
        program.run(&self.meter, event, &mut self.state)?;
        Ok(())
    }

    // Shows a figure's amount to an observer of this level.
    pub fn show(&self, level: u16, figure: u32) -> Result<i32, EngineFault>
        ensures { IsStep S.Scale.meaning M.Meter.meaning self.now self.now (show_call level figure) (show_answer result) }
    {
        let book = self.book()?;
        self.ask_level(level)?;
        let own = figure_level(book, figure)?;
        self.ask_below(own, level, EngineFault::Hidden(figure))?;
        Ok(self.state.amount(figure as usize))
    }

    // Shows the clock to an observer of this level.
    pub fn clock(&self, level: u16) -> Result<u64, EngineFault>
        ensures { IsStep S.Scale.meaning M.Meter.meaning self.now self.now (clock_call level) (clock_answer result) }
    {
        let book = self.book()?;
        self.ask_level(level)?;
        self.ask_below(book.clock_level(), level, EngineFault::HiddenClock)?;
        Ok(self.state.clock())
    }

    // Refuses figures that a slip of this holder cannot name.
    fn ask_figures(&self, book: &Book, holder: u16, from: u32, to: u32) -> Result<(), EngineFault>
        ensures { result_err result ≡ or_else (ask_level (S.Scale.meaning self.now.scale) holder) (or_else (ask_figure (said book.now) from) (or_else (ask_figure (said book.now) to) (or_else (ask_apart from to) (ask_sight (S.Scale.meaning self.now.scale) (said book.now) holder from)))) }
    {
        self.ask_level(holder)?;
        let own = figure_level(book, from)?;
        figure_level(book, to)?;
        refuse_unless(from != to, EngineFault::SameFigure(from))?;
        self.ask_below(own, holder, EngineFault::Hidden(from))
    }

    // Opens a slip for a holder of this level, from one figure to another.
    pub fn open_slip(&mut self, holder: u16, from: u32, to: u32) -> Result<Slip, EngineFault>
        ensures { IsStep S.Scale.meaning M.Meter.meaning self.old self.new (open_slip holder from to) (open_answer result) }
    {
        self.ask_figures(self.book()?, holder, from, to)?;
        self.ask_no_slip()?;
        refuse_unless(self.tally.openings < 65_535, EngineFault::TooManyOpenings)?;
        self.tally.openings += 1;
        let numbers = Numbers {
            holder,
            from,
            to,
            number: self.tally.openings,
        };
        self.out = Some(numbers);
        Ok(Slip { numbers })
    }

    // Whether these are the numbers of the slip that is out.
    fn is_out(&self, numbers: Numbers) -> bool
        ensures { unless result NotTheSlip ≡ ask_slip (out_of self.now.out) (paper_of numbers) }
    {
        self.out == Some(numbers)
    }

    // Ends the slip that is out; any other one comes back, with the reason.
    fn end_slip(&self, slip: Slip) -> Result<Numbers, Refused>
        ensures { Ended (out_of self.now.out) slip result }
    {
        if !self.is_out(slip.numbers) {
            return Err(Refused {
                slip,
                fault: EngineFault::NotTheSlip,
            });
        }
        Ok(slip.end())
    }

    // Carries a slip: its second figure gets the amount that its first one has now, without ticks.
    pub fn carry(&mut self, slip: Slip) -> Result<(), Refused>
        ensures step { IsStep S.Scale.meaning M.Meter.meaning self.old self.new (carry_call (paper_of slip.numbers)) (slip_answer result) }
        ensures back { Back slip result }
    {
        let numbers = self.end_slip(slip)?;
        let amount = self.state.amount(numbers.from as usize);
        self.state.set_amount(numbers.to as usize, amount);
        self.out = None;
        self.tally.carries += 1;
        Ok(())
    }

    // Withdraws a slip: it is used up, and nothing moves.
    pub fn withdraw(&mut self, slip: Slip) -> Result<(), Refused>
        ensures step { IsStep S.Scale.meaning M.Meter.meaning self.old self.new (withdraw_call (paper_of slip.numbers)) (slip_answer result) }
        ensures back { Back slip result }
    {
        self.end_slip(slip)?;
        self.out = None;
        self.tally.withdrawals += 1;
        Ok(())
    }

    // Destroys a slip that is worth nothing here; the one that is out comes back.
    pub fn void(&self, slip: Slip) -> Result<(), Slip>
        ensures { Voided (out_of self.now.out) slip result }
    {
        if self.is_out(slip.numbers) {
            return Err(slip);
        }
        let _ = slip.end();
        Ok(())
    }

    // The openings, carries and withdrawals accepted since the engine was made.
    pub fn tally(&self) -> Tally
        ensures { IsStep S.Scale.meaning M.Meter.meaning self.now self.now tally_call (tally_answer result) }
    {
        self.tally
    }
}
