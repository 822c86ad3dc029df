// What every movement has to be.
ghost use Rattle.std.specs.Prelude.{◌≡◌};
ghost use Rattle.plan.specs.Plan.{Plan};
ghost use Rattle.plan.specs.Field.{field_number};
ghost use Rattle.plan.specs.Laws.{Laws};

use crate::field::Field;
use crate::sizes::Sizes;

/// A movement. It means a plan, and no implementation exists without the laws of one. A question takes any number, changes
/// nothing and is answered by the plan; two movements are equal when their plans are.
pub trait Movement {
    ghost plan: { Self → Plan };

    fn sizes(&self) -> Sizes
        ensures tables { result.tables ≡ (plan self.now).tables }
        ensures rounds { result.rounds ≡ (plan self.now).rounds }
        ensures sets { result.sets ≡ (plan self.now).sets }
        ensures pairs { result.pairs ≡ (plan self.now).pairs };

    /// The field in which a pair is ranked, or nothing where there is no such pair.
    fn field(&self, pair: u8) -> Option<Field>
        ensures { field_number result ≡ (plan self.now).field pair };

    /// The North-South pair, the East-West pair and the set of boards, or nothing where the table is empty or there is no
    /// such round or table.
    // A tuple, which callers take apart or compare whole: no field of it is read by itself.
    fn seat(&self, round: u8, table: u8) -> Option<(u8, u8, u8)>
        ensures { result ≡ (plan self.now).seat round table };

    // These four are not final, so that they can be asked of a `&dyn Movement` too.
    fn tables(&self) -> u8
        ensures { result ≡ (plan self.now).tables }
    {
        self.sizes().tables
    }

    fn rounds(&self) -> u8
        ensures { result ≡ (plan self.now).rounds }
    {
        self.sizes().rounds
    }

    fn sets(&self) -> u8
        ensures { result ≡ (plan self.now).sets }
    {
        self.sizes().sets
    }

    fn pairs(&self) -> u8
        ensures { result ≡ (plan self.now).pairs }
    {
        self.sizes().pairs
    }

    ghost lawful: { (m : Self) → Laws (plan m) };
}
