//! The message of each link, written from the rows of its source.
ghost use Rattle.std.specs.Prelude.{◌≡◌, length, map};
ghost use Rattle.pals_model.specs.DesignRules.{IsDesign};
ghost use Rattle.sync_product.specs.proof.ProductSizes.{stage_size, stage_sizes, message_sizes};
ghost use Rattle.sync_product.specs.proof.Rounds.{sent_by};

use crate::component_stage::Stage;
use crate::tuple_columns::write_port_tuple;
use pals_base::{ItemList, Tuple};
use pals_model::Design;

/// Writes the message of each link, from the rows of its source.
pub fn send_all(design: &Design, stages: &[Stage], messages: &mut ItemList<Tuple>)
    requires stages { map stage_size stages.now ≡ stage_sizes design.now }
    requires messages { map (λ tuple. length tuple) messages.old ≡ message_sizes design.now }
    ensures sent { messages.new ≡ map (sent_by stages.now) design.now.links }
    ensures sizes { map (λ tuple. length tuple) messages.new ≡ message_sizes design.now }
    ensures rules { IsDesign design.now }
{
    for (number, link) in design.links().iter().enumerate() {
        let stage = &stages[link.source.0 as usize];
        let message = &mut messages[number];
        write_port_tuple(
            message,
            stage.rows.as_slice(),
            link.out_port as usize,
            stage.sent,
        );
    }
}
