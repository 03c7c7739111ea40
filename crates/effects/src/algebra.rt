// The interface of an effect algebra.
ghost use Rattle.std.specs.Prelude.{◌≡◌, ◌<◌};
ghost use Rattle.effects.specs.Effects.{Effects, Questions, Lawful, Few};

// A finite set of effects with their codes, combiners and questions. The type that implements it is
// the set. What it means stands in two ghost records, the effects and the questions that can be asked
// of two of them; every function answers what its record says, of the combiners and questions that there
// are, and depends on its arguments alone.
pub trait EffectAlgebra: Copy {
    ghost effects: { Effects Self };

    ghost questions: { Questions Self };

    // How many effects there are.
    fn count() -> u8
        ensures { result ≡ effects.count };

    // The code of an effect.
    fn code(self) -> u8
        ensures { result ≡ effects.code self };

    // The effect of a code. No TryFrom: below the count there is one, and no error.
    fn effect(code: u8) -> Self
        requires { code < effects.count }
        ensures { result ≡ effects.effect code };

    // The effect of a policy that has nothing to say of a request.
    fn not_applicable() -> Self
        ensures { result ≡ effects.not_applicable };

    // Whether a policy may state this effect.
    fn statable(self) -> bool
        ensures { result ≡ effects.statable self };

    // What becomes of an effect where a condition marks its policy as failed.
    fn failed(self) -> Self
        ensures { result ≡ effects.failed self };

    // How many combiners there are.
    fn combiner_count() -> u8
        ensures { result ≡ effects.combiners };

    // The effect that a combiner gives for a first and a second; any effect where there is no such combiner. An algebra
    // may have none, so this cannot be required of a caller. A combiner is an operand byte of a tape, and so no enum.
    fn combine(combiner: u8, first: Self, second: Self) -> Self
        ensures { combiner < effects.combiners → result ≡ effects.combined combiner first second };

    // How many questions there are.
    fn question_count() -> u8
        ensures { result ≡ questions.questions };

    // Whether a pair (first, second) breaks a question; any answer where there is no such question, as with combiners.
    // A question is a byte of a job, and so no enum.
    fn breaks(question: u8, first: Self, second: Self) -> bool
        ensures { question < questions.questions → result ≡ questions.breaks question first second };

    // code and effect undo each other on both sides, and the counts are within their limits
    ghost lawful: { Lawful effects };

    ghost few: { Few questions };
}
