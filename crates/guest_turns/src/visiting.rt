ghost use Rattle.std.specs.Prelude.{◌≡◌, ◌++◌, ◌∷◌, [], List, OnOk, length};
ghost use Rattle.hart_step.specs.declared.hart.Hart.{Hart as HartOf};

use hart_step::Hart;
use pages::OutOfMemory;

/// Whoever is shown the harts along the serial turns of a round, turn by turn in hart order.
pub trait TurnVisitor {
    // What one that began as the first of these knows, once it was shown the harts along these turns, and these of the next turn.
    ghost knows: { Self → Self → List (List HartOf) → List HartOf → Type 0 };

    /// Takes what the hart of this number is before the next instruction of its turn, of which `count` are done.
    ///
    /// # Errors
    ///
    /// `OutOfMemory` alone.
    fn before_instruction(
        &mut self,
        number: u32,
        count: u32,
        hart: &Hart,
    ) -> Result<(), OutOfMemory>
        ensures { OnOk result ((first : Self) (turns : List (List HartOf)) (along : List HartOf) →
            length turns ≡ number → length along ≡ count → knows first self.old turns along →
            knows first self.new turns (along ++ hart.now ∷ [])) };

    /// Takes what the hart of this number is as its turn of `count` instructions leaves it.
    ///
    /// # Errors
    ///
    /// `OutOfMemory` alone.
    fn after_turn(&mut self, number: u32, count: u32, hart: &Hart) -> Result<(), OutOfMemory>
        ensures { OnOk result ((first : Self) (turns : List (List HartOf)) (along : List HartOf) →
            length turns ≡ number → length along ≡ count → knows first self.old turns along →
            knows first self.new (turns ++ (along ++ hart.now ∷ []) ∷ []) []) };
}
